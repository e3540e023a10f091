//! The grammar: what a line of a script requests.

mod command;
mod field;
mod fields;
mod item;
mod line_form;
mod route_parameters;

pub use command::{Command, parse};
pub use item::{Item, ItemForm, decode_digits};
pub use line_form::{LineForm, LineKind, may_ask_routes};
pub use route_parameters::RouteParameters;
