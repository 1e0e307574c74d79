//! Calls that must be made for a caller (RFC 1833 sections 2.1 and 3.1).
ghost use Rattle.std.specs.Prelude.{◌≡◌, IfSome};
ghost use Rattle.rb_arguments.specs.Arguments.{front};
ghost use Rattle.rb_arguments.specs.Remote.{HasContent, read_remote, args_of};

use crate::kind::LONGEST_FORWARDED;
use rb_xdr::{Xdr, XdrFault, take_opaque};

/// Where the content of args begins, after three numbers and its count.
const CONTENT: usize = 16;

/// rpcb_rmtcallargs of RFC 1833 section 2.1 and call_args of section 3.1: which procedure of which program should be
/// called, and how many bytes of arguments it must be given, at most 8,800. Those stay where they came.
#[derive(Clone, Copy)]
pub struct RemoteCall {
    /// The program's number.
    pub prog: u32,
    /// The program's version.
    pub vers: u32,
    /// The procedure's number.
    pub proc: u32,
    /// How many bytes the content of args has.
    pub count: usize,
}

impl RemoteCall {
    /// The call that the front of the bytes asks for, or `None` if none is spelled there or args has more than
    /// 8,800 bytes. What follows it counts for nothing.
    #[tactic(auto, using(crate::proofs::Remotes::content_is_there))]
    pub fn read(bytes: &[u8]) -> Option<RemoteCall>
        ensures call { result ≡ front read_remote bytes.now }
        ensures content { IfSome result (λ remote. HasContent remote bytes.now) }
    {
        match RemoteCall::read_front(bytes) {
            Ok((remote, _)) => Some(remote),
            Err(_) => None,
        }
    }

    /// The same with where it ends, or the first fault.
    #[tactic(auto, unfolding(crate::specs::Remote::read_remote, crate::specs::Forwarded::longest_forwarded))]
    fn read_front(bytes: &[u8]) -> Result<(RemoteCall, usize), XdrFault>
        ensures { result ≡ read_remote bytes.now }
    {
        let (prog, first) = u32::read(bytes)?;
        let bytes = &bytes[first..];
        let (vers, second) = u32::read(bytes)?;
        let bytes = &bytes[second..];
        let (proc, third) = u32::read(bytes)?;
        let bytes = &bytes[third..];
        let (args, fourth) = take_opaque(bytes, LONGEST_FORWARDED)?;
        let count = args.len();
        let used = first + (second + (third + fourth));
        Ok((
            RemoteCall {
                prog,
                vers,
                proc,
                count,
            },
            used,
        ))
    }

    /// The content of args, of the bytes that the call was read from.
    pub fn args(self, arguments: &[u8]) -> &[u8]
        requires { HasContent self arguments.now }
        ensures { result.now ≡ args_of self arguments.now }
    {
        &arguments[CONTENT..CONTENT + self.count]
    }
}
