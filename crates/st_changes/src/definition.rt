// A definition of a method.
use st_scan::Text;

/// A method as a session defines it, and the changes file keeps it.
#[derive(Drop)]
pub struct Definition {
    /// The name of its class.
    pub class: Text,
    /// Whether it is a method of the class side.
    pub meta: bool,
    pub category: Text,
    /// The method's text.
    pub text: Text,
}
