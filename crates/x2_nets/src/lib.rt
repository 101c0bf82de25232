//! The net names that a copper file gives its objects.
//!
//! Extended Gerber files carry attributes (Gerber Layer Format Specification, section 5). `TO.N` says of which net the
//! objects are that come next, and `TD` or `TD.N` ends that. `labels` lists these words of a file (`listing`), read one
//! by one (`said`); `label_at` and `label_among` tell which name is in force at a command (`label_table`): `label_among`, which the
//! layer above calls, halves the list. The laws over the definitions stand in `laws`.
#![tactic(auto)]

mod label_table;
pub mod laws;
mod listing;
mod said;

pub use label_table::{Label, label_among, label_at};
pub use listing::{LabelFault, labels};
