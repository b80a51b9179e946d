// A window onto a part: it hides the first blocks, which belong to the boot loader, and shows some of the next.
#![tactic(auto)]

mod window;

pub use window::Window;
