//! What the reader of a netlist keeps, and how it obeys a line.
use crate::MOST_RECORDS;
use crate::effect::Effect;
use crate::kind::RecordKind;
use crate::line::{RecordLine, TestFields};
use crate::names::NameTable;
use crate::netlist::Netlist;
use crate::record_effects::{behind, needed, placed, set_unit, within};
use board_shapes::Probe;
use file_reading::Halt;
use lengths::decimal::Unit;
use lengths::rows::{NoMemory, Rows};
use planar::Spot;
use std::alloc::Global;

/// What the lines of a netlist so far have set and added, on a board of so many layers; `records` counts the test
/// records.
#[derive(Drop)]
pub struct Reader<'a> {
    pub unit: Option<Unit>,
    pub records: u32,
    pub names: NameTable<'a>,
    pub ended: bool,
    pub probes: Rows<Probe>,
    pub layers: u8,
}

impl<'a> Reader<'a> {
    ghost use Rattle.std.specs.Prelude.{◌≡◌, ◌+◌, ◌≤◌, ◌∷◌, [], map, IfOk, IfErr, IsErrOf, OnOk};
    ghost use Rattle.std.specs.Option.{option_copied};
    ghost use Rattle.ipc356_records.specs.Lawful.{IsLawfulForm, IsName};
    ghost use Rattle.ipc356_records.specs.Line.{view, view_fields};
    ghost use Rattle.ipc356_records.specs.NameTable.{names_in};
    ghost use Rattle.ipc356_records.specs.Reader.{Applies, Halts, IsFit, IsLawfulReader, IsNew, Obeys, Pushes, known_of, showing, shown};
    ghost use Rattle.ipc356_records.specs.declared.kind.RecordKind.{RecordKind};
    ghost use Rattle.ipc356_records.specs.RecordEffects as spec;
    ghost use Rattle.ipc356_records.specs.RecordEffects.{adds, layers_of, probe_at};

    /// Before the first line. There is at least one layer.
    pub fn new(alloc: Global, layers: u8) -> Reader<'a>
        requires { 1 ≤ layers }
        ensures new { IsNew layers result }
        ensures lawful { IsLawfulReader result }
    {
        Reader {
            unit: None,
            records: 0,
            names: NameTable::new(alloc),
            ended: false,
            probes: Rows::new(alloc),
            layers,
        }
    }

    // A test record, by its conditions in order.
    #[tactic(auto, unfolding(crate::specs::RecordEffects::test_record))]
    fn test_record(&self, fields: TestFields<'a>) -> Result<Effect<'a>, RecordKind>
        requires lawful { IsName (option_copied fields.name) }
        ensures value { showing result ≡ spec.test_record (known_of self.now) (view_fields fields.entry) }
        ensures fit { IfOk result (λ e. IsFit self.now (shown e)) }
    {
        let unit = needed(RecordKind::MissingUnits, self.unit)?;
        let name = needed(RecordKind::BadName, fields.name)?;
        let access = needed(RecordKind::BadAccess, within(self.layers, fields.access))?;
        self.located(fields, unit, name, access)
    }

    // A test record by its coordinates. A row of seven question marks would cost its proof twice.
    fn located(
        &self,
        fields: TestFields,
        unit: Unit,
        name: &'a [u8],
        access: u32,
    ) -> Result<Effect<'a>, RecordKind>
        requires lawful { IsName (Some name.now) }
        requires within { access ≤ self.now.layers }
        ensures value { showing result ≡ spec.located (known_of self.now) (view_fields fields.entry) unit name.now access }
        ensures fit { IfOk result (λ e. IsFit self.now (shown e)) }
    {
        let x = needed(RecordKind::BadNumber, fields.x)?;
        let y = needed(RecordKind::BadNumber, fields.y)?;
        let x = placed(unit, x)?;
        let y = placed(unit, y)?;
        if self.records >= MOST_RECORDS {
            return Err(RecordKind::TooManyRecords);
        }
        Ok(Effect::Adds(name, access, Spot { x, y }))
    }

    #[tactic(auto, unfolding(crate::specs::RecordEffects::row))]
    fn row(&self, form: &RecordLine<'a>) -> Result<Effect<'a>, RecordKind>
        requires lawful { IsLawfulForm (view form.now) }
        ensures value { showing result ≡ spec.row (known_of self.now) (view form.now) }
        ensures fit { IfOk result (λ e. IsFit self.now (shown e)) }
    {
        match *form {
            RecordLine::Blank | RecordLine::Unread => Ok(Effect::Stays),
            RecordLine::Units(unit) => set_unit(self.unit, unit),
            RecordLine::End => Ok(Effect::Closes),
            RecordLine::Continuation => Err(RecordKind::Continuation),
            RecordLine::Test(fields) => self.test_record(fields),
            RecordLine::Unknown => Err(RecordKind::UnknownCode),
            RecordLine::Finish => Err(RecordKind::NotEnded),
        }
    }

    // What a line does, or its fault.
    #[tactic(auto, unfolding(crate::specs::RecordEffects::effect))]
    fn effect(&self, form: &RecordLine<'a>) -> Result<Effect<'a>, RecordKind>
        requires lawful { IsLawfulForm (view form.now) }
        ensures value { showing result ≡ spec.effect (known_of self.now) (view form.now) }
        ensures fit { IfOk result (λ e. IsFit self.now (shown e)) }
    {
        if self.ended {
            behind(form)
        } else {
            self.row(form)
        }
    }

    // Adds the probe of a test record on a layer.
    fn add_probe(&mut self, number: u32, at: Spot, layer: u8, name: u32) -> Result<(), NoMemory>
        ensures ok { OnOk result (Pushes self.old (probe_at number name at layer ∷ []) self.new) }
    {
        self.probes.push(Probe {
            number,
            at,
            layer,
            name,
        })
    }

    // Adds the probes of a test record.
    fn add_probes(&mut self, number: u32, at: Spot, access: u8, name: u32) -> Result<(), NoMemory>
        ensures ok { OnOk result (Pushes self.old (map (probe_at number name at) (layers_of self.old.layers access)) self.new) }
    {
        if access > 0 {
            return self.add_probe(number, at, access, name);
        }
        self.add_probe(number, at, 1, name)?;
        if self.layers == 1 {
            return Ok(());
        }
        self.add_probe(number, at, self.layers, name)
    }

    // Adds a test record. An `Err` leaves a reader that is of no more use.
    #[tactic(auto, unfolding(crate::specs::RecordEffects::probes_of_effect))]
    fn add(&mut self, name: &'a [u8], access: u32, at: Spot) -> Result<(), NoMemory>
        requires lawful { IsLawfulReader self.old }
        requires fit { IsFit self.old (adds name.now access at) }
        ensures ok { OnOk result (Applies self.old (adds name.now access at) self.new) }
        ensures lawful { OnOk result (IsLawfulReader self.new) }
    {
        let name = self.names.number(name)?;
        let number = self.records + 1;
        self.records = number;
        self.add_probes(number, at, access as u8, name)
    }

    // Takes an effect on. An `Err` leaves a reader that is of no more use.
    #[tactic(auto, unfolding(crate::specs::RecordEffects::probes_of_effect))]
    fn apply(&mut self, effect: Effect<'a>) -> Result<(), NoMemory>
        requires lawful { IsLawfulReader self.old }
        requires fit { IsFit self.old (shown effect) }
        ensures ok { OnOk result (Applies self.old (shown effect.entry) self.new) }
        ensures lawful { OnOk result (IsLawfulReader self.new) }
    {
        match effect {
            Effect::Stays => Ok(()),
            Effect::Sets(unit) => {
                self.unit = Some(unit);
                Ok(())
            },
            Effect::Closes => {
                self.ended = true;
                Ok(())
            },
            Effect::Adds(name, access, at) => self.add(name, access, at),
        }
    }

    /// Obeys a line. After a fault the reader is as it was. Where memory is wanted it may have taken a part of the record on: nothing
    /// is said of it, since `read_netlist` drops it.
    pub fn obey(&mut self, form: &RecordLine<'a>) -> Result<(), Halt<RecordKind>>
        requires lawful { IsLawfulReader self.old }
        requires form { IsLawfulForm (view form.now) }
        ensures ok { OnOk result (Obeys self.old (view form.now) self.new) }
        ensures lawful { OnOk result (IsLawfulReader self.new) }
        ensures halt { IfErr result (Halts (known_of self.old) (view form.now)) }
        ensures unchanged { (why : RecordKind) → IsErrOf result (Halt.Fault why) → self.new ≡ self.old }
    {
        let effect = self.effect(form)?;
        self.apply(effect).map_err(|_| Halt::NoMemory)
    }

    /// The probes and the names as texts of their own.
    pub fn into_netlist(self, alloc: Global) -> Result<Netlist, NoMemory>
        requires lawful { IsLawfulReader self }
        ensures probes { IfOk result (λ n. n.probes ≡ self.entry.probes) }
        ensures names { IfOk result (λ n. n.names ≡ names_in self.entry.names) }
    {
        let names = self.names.texts(alloc)?;
        Ok(Netlist {
            probes: self.probes,
            names,
        })
    }
}
