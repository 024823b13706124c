use st_method::Header;
use st_model::Call;

/// A call, with the header of its method.
#[derive(Clone, Copy)]
pub struct Called {
    /// The call.
    pub call: Call,
    /// The header of its method.
    pub header: Header,
}
