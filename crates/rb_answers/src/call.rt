//! A call of a procedure that is served.
use rb_arguments::Request;
use rb_rpc::CallHead;

/// A call of a procedure that is served, with arguments that could be read.
#[derive(Drop)]
pub struct Call<'a> {
    /// Its head.
    pub head: CallHead,
    /// What it asks for.
    pub request: Request<'a>,
}
