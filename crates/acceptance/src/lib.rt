// Whether the lines of a sheet are a script together: the checks of the whole sheet, and the declarations that its names belong to.
#![tactic(auto)]

mod classes;
mod constants;
mod declared;
mod depth;
mod form;
pub mod globals;
mod names;
mod resolve;
mod scopes;
pub mod scripts;
mod sheet_lines;
pub mod verdict;
