// A box as a process: lines in, its file, lines out.
#![tactic(auto)]

mod coming_up;
mod feeding;
mod own;
mod serving;
mod text;
mod waiting;
mod which;

pub use coming_up::CameUp;
pub use coming_up::opening::come_up;
pub use own::settles_one_way;
pub use serving::serve;
pub use text::print;
pub use waiting::{cut_at_a_newline, whole_lines};
pub use which::Which;
pub use which::asked::{of_boxes, of_sixteen};
