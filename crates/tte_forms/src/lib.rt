//! What the commands of the program share: the words and their forms, the status and the last line, and how a file
//! gives an accepted network; and the two commands over one file, which show its frames or check its network.
#![tactic(auto)]

mod accepting;
mod checking;
mod each_line;
mod form;
mod put_line;
mod showing;
mod status;
mod word;
mod words;

pub use accepting::network_line::make_rule_line;
pub use accepting::{NoNetwork, accept, accept_text, put_no_network, read_unjudged};
pub use checking::check_network;
pub use each_line::{LineMaker, put_each, put_lines};
pub use form::{Form, cycles_spelled, number_up_to, read_form};
pub use put_line::{end_with, put_last};
pub use showing::{push_frame, push_refusal, show, show_law};
pub use status::Status;
pub use word::Word;
pub use words::Words;
