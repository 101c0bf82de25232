//! A contour that grows edge by edge.
ghost use Rattle.area_contact.specs.declared.TheConstants.{MOST_CONTOUR_EDGES};
ghost use Rattle.planar.specs.Plane.{IsPlaced};
ghost use Rattle.std.specs.Prelude.{All, IfSome, [], length, ◌≡◌, ◌≤◌};

use area_contact::{Area, AreaFault, MOST_CONTOUR_EDGES};
use planar::Spot;
use std::alloc::Global;
use thiserror::Error;

/// Why an edge is not added.
#[derive(Clone, Copy, Debug, PartialEq, Eq, Error)]
pub enum AddFault {
    /// There are `MOST_CONTOUR_EDGES` edges already.
    #[error("too many edges")]
    TooLong = 1,
    #[error("memory is wanted")]
    NoMemory,
}

/// Why a contour is not closed.
#[derive(Clone, Copy, Debug, PartialEq, Eq, Error)]
pub enum CloseFault {
    /// There is an edge, and the last spot is not the first.
    #[error("the contour is open")]
    Open = 1,
    /// It is closed with one or two edges.
    #[error("the contour has fewer than three edges")]
    Short,
    #[error("memory is wanted")]
    NoMemory,
}

/// An edge: where it ends, in u, and what is kept of it besides, as its bend.
#[derive(Clone, Copy)]
pub struct Leg<E> {
    pub to: Spot,
    pub bend: E,
}

/// The contour of a region so far: where it began, and its edges.
#[derive(Drop)]
pub struct Contour<E> {
    pub first: Spot,
    pub legs: Vec<Leg<E>>,
    ghost begun: { IsPlaced first },
    ghost placed: { All (λ leg. IsPlaced leg.to) legs.items },
    ghost few: { length legs.items ≤ MOST_CONTOUR_EDGES },
}

impl<E: Copy + Drop> Contour<E> {
    ghost use Rattle.regions.specs.Contours.{Adds, Closes, close_of, outline_of, points_of};

    /// A contour that begins at a spot within 1 m and has no edge yet.
    pub fn begin(alloc: Global, at: Spot) -> Contour<E>
        requires { IsPlaced at }
        ensures { outline_of result ≡ record { first = at; legs = [] } }
    {
        Contour {
            first: at,
            legs: Vec::new(alloc),
        }
    }

    /// Adds an edge from the last spot to this one, within 1 m.
    ///
    /// `TooLong` where there are `MOST_CONTOUR_EDGES` edges already. A refusal changes nothing.
    pub fn add(&mut self, to: Spot, bend: E) -> Result<(), AddFault>
        requires { IsPlaced to }
        ensures { Adds (outline_of self.old) to bend result (outline_of self.new) }
    {
        if self.legs.len() >= MOST_CONTOUR_EDGES as usize {
            return Err(AddFault::TooLong);
        }
        match self.legs.push(Leg { to, bend }) {
            Ok(()) => Ok(()),
            Err(_) => Err(AddFault::NoMemory),
        }
    }

    /// The number of edges.
    pub fn edges(&self) -> u32
        ensures value { result ≡ length (outline_of self.now).legs }
        ensures few { result ≤ MOST_CONTOUR_EDGES }
    {
        self.legs.len() as u32
    }

    // The points, unless memory is wanted.
    fn points(&self, alloc: Global) -> Option<Vec<Spot>>
        ensures value { IfSome result (λ points. points.items ≡ points_of (outline_of self.now)) }
        ensures placed { IfSome result (λ points. All IsPlaced points.items) }
    {
        let Ok(mut points) = Vec::with_capacity(alloc, self.legs.len() + 1) else {
            return None;
        };
        let Ok(()) = points.push(self.first) else {
            return None;
        };
        for leg in &self.legs {
            let Ok(()) = points.push(leg.to) else {
                return None;
            };
        }
        Some(points)
    }

    /// The area through the spots of the contour, whatever is kept of its edges besides, or `None` where it has no edge.
    ///
    /// `Open` where it has an edge and the last spot is not the first; `Short` where it is closed
    /// with one or two edges. A refusal drops the contour.
    #[tactic(auto, unfolding(crate::specs::Contours::close_of))]
    pub fn close(self, alloc: Global) -> Result<Option<Area>, CloseFault>
        ensures { Closes result (close_of (points_of (outline_of self))) }
    {
        if self.legs.is_empty() {
            return Ok(None);
        }
        let Some(points) = self.points(alloc) else {
            return Err(CloseFault::NoMemory);
        };
        match Area::new(alloc, points) {
            Ok(area) => Ok(Some(area)),
            Err(AreaFault::Open) => Err(CloseFault::Open),
            Err(AreaFault::Short) => Err(CloseFault::Short),
            Err(AreaFault::TooLong) => unreachable!(),
            Err(AreaFault::NoMemory) => Err(CloseFault::NoMemory),
        }
    }
}
