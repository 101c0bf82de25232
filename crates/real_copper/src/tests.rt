// Figures made and moved, with numbers from the page of Gerber's specification.
use crate::draw::Bend;
use crate::strokes::draw_of;
use planar::Spot;
use real_shapes::RealShape;
use std::test::Fail;
use step_repeat::Figure;

#[test]
fn an_arc_is_moved_with_its_centre(rt: HostRuntime) -> Result<(), Fail> {
    let centre = Spot { x: 5, y: 0 };
    let bend = Bend {
        clockwise: true,
        centre,
    };
    let draw = draw_of(Some(bend), Spot { x: 0, y: 0 }, Spot { x: 10, y: 0 }, 3);
    let moved = draw.shifted(rt.alloc(), 7, -1)?;
    let RealShape::ArcDraw(arc) = moved.shape else {
        return Err(Fail::from("no arc"));
    };
    assert_eq!(rt; arc.centre, Spot { x: 12, y: -1 });
    assert_eq!(rt; arc.start, Spot { x: 17, y: -1 });
    assert_eq!(rt; arc.end, Spot { x: 7, y: -1 });
    Ok(())
}
