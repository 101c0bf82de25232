//! What earlier lines have set.
ghost use Rattle.std.specs.Prelude.{◌≡◌};

use lengths::decimal::Unit;
use planar::Spot;

/// Before `M48`, from it to `%`, from there to `M30`, or behind it.
#[derive(Clone, Copy)]
pub enum Stage {
    Opening,
    Header,
    Body,
    Ended,
}

/// Whether a place is drilled, or the tool goes along routs.
#[derive(Clone, Copy)]
pub enum Mode {
    Drill,
    Rout,
}

/// What is in force before a line.
#[derive(Clone, Copy)]
pub struct Settings {
    pub stage: Stage,
    pub unit: Option<Unit>,
    /// The number of the selected tool.
    pub tool: Option<u32>,
    pub mode: Mode,
    /// Whether the tool is down, in the copper.
    pub down: bool,
    /// The last place.
    pub at: Spot,
}

impl Settings {
    /// The same in this stage.
    pub fn in_stage(self, stage: Stage) -> Settings
        ensures { result ≡ record self { stage = stage } }
    {
        Settings { stage, ..self }
    }

    /// The same with this tool selected, or none.
    pub fn with_tool(self, tool: Option<u32>) -> Settings
        ensures { result ≡ record self { tool = tool } }
    {
        Settings { tool, ..self }
    }

    /// The same with the tool down, or up.
    pub fn with_down(self, down: bool) -> Settings
        ensures { result ≡ record self { down = down } }
    {
        Settings { down, ..self }
    }
}
