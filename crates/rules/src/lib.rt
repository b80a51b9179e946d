// The rules of the layer, stated over what a part shows and what the tables hold, and the promise over whole runs.
#![tactic(auto)]

mod answer;
mod call;
mod examples;
mod kind;
mod promise;
mod refusal;
mod refusal_text;
mod size_check;
mod theorems;
mod want_of_memory;

pub use answer::{Answer, Reply, Usage, Written, is_refusal};
pub use call::Call;
pub use examples::{SizeTable, worked_sizes};
pub use kind::Kind;
pub use promise::promise_is_kept;
pub use refusal::Refusal;
pub use size_check::{MOST_FLASH_PAGES, check_sizes};
pub use theorems::theorems_hold;
