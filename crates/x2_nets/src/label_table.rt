//! The labels of a file, and the one in force at a command.
ghost use Rattle.std.specs.Prelude.{◌≡◌, ◌≤◌, nat_lt, true, false, length};
ghost use Rattle.std.specs.List.Sorted.{IsPartitionPoint};
ghost use Rattle.std.specs.Option.{option_copied};
ghost use Rattle.x2_nets.specs.Labels.{Rise, name_at};

use lengths::rows::Rows;
use lengths::text::Text;

/// A word that gives objects the name of a net, or ends it: its command, counted from 1, and the name, if it gives one.
#[derive(Drop)]
pub struct Label {
    pub command: u32,
    pub name: Option<Text>,
}

/// The name in force at a command: that of the last label whose command is less. `None` exactly where there is no such
/// label, or it has no name. It goes through all labels, whatever their order, and takes no memory.
pub fn label_at(labels: &Rows<Label>, command: u32) -> Option<&Text>
    ensures { option_copied result ≡ name_at labels.now command }
{
    let mut found = None;
    for label in labels.as_slice() {
        if label.command < command {
            found = label.name.as_ref();
        }
    }
    found
}

/// The same of labels whose commands do not fall, as those that `labels` gives do: it halves the list until the label is found.
pub fn label_among(labels: &Rows<Label>, command: u32) -> Option<&Text>
    requires { Rise labels.now }
    ensures { option_copied result ≡ name_at labels.now command }
{
    let rising = labels.as_slice();
    let count = labels_before(rising, command);
    if count == 0 {
        return None;
    }
    rising[count - 1].name.as_ref()
}

// How many labels have a lesser command.
fn labels_before(labels: &[Label], command: u32) -> usize
    requires { Rise labels.now }
    ensures within { result ≤ length labels.now }
    ensures place { IsPartitionPoint (λ l. nat_lt l.command command ≡ true) (λ l. nat_lt l.command command ≡ false) labels.now result }
{
    labels.partition_point(
        |label: &Label| -> bool
            ensures { result ≡ nat_lt label.now.command command }
        { label.command < command },
    )
}
