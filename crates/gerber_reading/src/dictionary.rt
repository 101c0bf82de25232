//! The aperture dictionary of a file, and its macros.
use crate::MOST_PRIMITIVES;
use crate::tool::Tool;
use aperture_macros::Primitive;
use lengths::rows::NoMemory;
use std::alloc::Global;
use std::collections::HashMap;
use texts::is_word;

/// A macro: its name and the primitives of its body.
#[derive(Drop)]
pub struct Macro<'a> {
    pub name: &'a [u8],
    pub body: Vec<Primitive<'a>>,
}

/// The apertures that a file has defined, by their numbers, the macro that it has begun last, and
/// the other macros by their names.
#[derive(Drop)]
pub struct Dictionary<'a, A> {
    tools: HashMap<u32, Tool<'a, A>>,
    latest: Option<Macro<'a>>,
    others: HashMap<&'a [u8], Vec<Primitive<'a>>>,
}

impl<'a, A: Drop> Dictionary<'a, A> {
    ghost use Rattle.std.specs.Prelude.{◌≡◌, ◌==◌, if◌then◌else◌, OnOk, OnErr, None, Some, ℕ, List, option_map, is_some};
    ghost use Rattle.std.specs.Option.{option_copied};
    ghost use Rattle.aperture_macros.specs.Seen.{plain};
    ghost use Rattle.gerber_reading.specs.Reader.{Adds, HasClosed, HasMacros, KeepsTools, body_of, defined_in, kept_in, macros_in, size_of, tool_of};
    ghost use Rattle.gerber_reading.specs.Tools.{begun, filled_up, has_room, macro_named};

    /// No apertures and no macros.
    pub fn new(alloc: Global) -> Dictionary<'a, A>
        ensures empty { (n : ℕ) → defined_in result n ≡ None }
        ensures size { size_of result ≡ 0 }
        ensures kept { (n : ℕ) → kept_in result n ≡ None }
        ensures latest { (macros_in result).latest ≡ None }
        ensures others { (name : List ℕ) → (macros_in result).others name ≡ None }
    {
        Dictionary {
            tools: HashMap::new(alloc),
            latest: None,
            others: HashMap::new(alloc),
        }
    }

    /// How many apertures are defined.
    pub fn len(&self) -> usize
        ensures { result ≡ size_of self.now }
    {
        self.tools.len()
    }

    /// The aperture of a number.
    pub fn find(&self, n: u32) -> Option<&Tool<'a, A>>
        ensures value { option_map tool_of (option_copied result) ≡ defined_in self.now n }
        ensures kept { option_copied result ≡ kept_in self.now n }
    {
        self.tools.get(&n)
    }

    /// Whether a number is defined.
    #[inline(always)]
    pub fn defines(&self, n: u32) -> bool
        ensures { result ≡ is_some (defined_in self.now n) }
    {
        self.find(n).is_some()
    }

    /// The primitives of the macro of a name.
    pub fn body(&self, name: &[u8]) -> Option<&[Primitive<'a>]>
        ensures { option_map body_of (option_copied result) ≡ macro_named (macros_in self.now) name.now }
    {
        match &self.latest {
            None => self.other(name),
            Some(latest) => if is_word(latest.name, name) {
                Some(&latest.body)
            } else {
                self.other(name)
            },
        }
    }

    /// Whether there is a macro of a name.
    pub fn has_macro(&self, name: &[u8]) -> bool
        ensures { result ≡ is_some (macro_named (macros_in self.now) name.now) }
    {
        self.body(name).is_some()
    }

    /// Whether the last macro has room for a primitive more.
    pub fn has_room(&self) -> bool
        ensures { result ≡ has_room (macros_in self.now).latest }
    {
        match &self.latest {
            None => false,
            Some(latest) => latest.body.len() < MOST_PRIMITIVES,
        }
    }

    // The primitives of a macro that is not the last.
    fn other(&self, name: &[u8]) -> Option<&[Primitive<'a>]>
        ensures { option_map body_of (option_copied result) ≡ (macros_in self.now).others name.now }
    {
        match self.others.get(name) {
            None => None,
            Some(body) => Some(body),
        }
    }

    /// Defines a number that was not defined before. An `Err` leaves all definitions as they were. It is a call, since few words
    /// define one; so are the next two.
    #[inline(never)]
    pub fn add(&mut self, n: u32, tool: Tool<'a, A>) -> Result<(), NoMemory>
        requires { defined_in self.old n ≡ None }
        ensures ok { OnOk result (Adds self.old self.new n (tool_of tool.entry)) }
        ensures kept { OnOk result ((m : ℕ) → kept_in self.new m ≡ (if n == m then Some tool.entry else kept_in self.old m)) }
        ensures err { OnErr result ((m : ℕ) → defined_in self.new m ≡ defined_in self.old m) }
    {
        match self.tools.insert(n, tool) {
            Ok(_) => Ok(()),
            Err(_) => Err(NoMemory),
        }
    }

    /// Begins a macro. An `Err` leaves the apertures as they are and may lose the last macro: nothing is said of macros then, since
    /// the reader is dropped.
    #[inline(never)]
    pub fn begin(&mut self, alloc: Global, name: &'a [u8]) -> Result<(), NoMemory>
        ensures macros { OnOk result (HasMacros self.old self.new (begun (macros_in self.old) name.now)) }
        ensures kept { KeepsTools self.old self.new }
    {
        self.close()?;
        self.latest = Some(Macro {
            name,
            body: Vec::new(alloc),
        });
        Ok(())
    }

    // Puts the last macro among the others.
    fn close(&mut self) -> Result<(), NoMemory>
        ensures closed { OnOk result (HasClosed self.old self.new) }
        ensures kept { KeepsTools self.old self.new }
    {
        match self.latest.take() {
            None => Ok(()),
            Some(latest) => match self.others.insert(latest.name, latest.body) {
                Ok(_) => Ok(()),
                Err(_) => Err(NoMemory),
            },
        }
    }

    /// Gives the last macro a primitive more. An `Err` leaves the apertures as they are and loses the last macro: nothing is said of
    /// macros then, since the reader is dropped.
    #[inline(never)]
    pub fn fill(&mut self, primitive: Primitive<'a>) -> Result<(), NoMemory>
        ensures macros { OnOk result (HasMacros self.old self.new (filled_up (macros_in self.old) (plain primitive.entry))) }
        ensures kept { KeepsTools self.old self.new }
    {
        match self.latest.take() {
            None => Ok(()),
            Some(mut latest) => match latest.body.push(primitive) {
                Ok(()) => {
                    self.latest = Some(latest);
                    Ok(())
                },
                Err(_) => Err(NoMemory),
            },
        }
    }
}
