//! Why an authentication is refused.
ghost use Rattle.std.specs.Prelude.{◌≡◌, ◌==◌, find};
ghost use Rattle.rb_rpc.specs.Messages.{auth_stat_number, auth_stat_of};

/// The auth_stat of a denied reply (RFC 5531 section 9). The daemon answers `BadCredential`,
/// `RejectedCredential` and `BadVerifier` alone.
#[derive(Clone, Copy, PartialEq, Eq, Debug)]
pub enum AuthStat {
    /// AUTH_OK
    Success,
    /// AUTH_BADCRED: the credential can't be read.
    BadCredential,
    /// AUTH_REJECTEDCRED: a new session must be begun, or the flavor isn't taken.
    RejectedCredential,
    /// AUTH_BADVERF: the verifier can't be read.
    BadVerifier,
    /// AUTH_REJECTEDVERF: the verifier has expired or was replayed.
    RejectedVerifier,
    /// AUTH_TOOWEAK
    TooWeak,
    /// AUTH_INVALIDRESP: the verifier of the reply is bogus.
    InvalidResponse,
    /// AUTH_FAILED: the reason isn't known.
    Failed,
    /// AUTH_KERB_GENERIC
    Kerberos,
    /// AUTH_TIMEEXPIRE
    TimeExpired,
    /// AUTH_TKT_FILE
    TicketFile,
    /// AUTH_DECODE
    Decode,
    /// AUTH_NET_ADDR
    NetAddress,
    /// RPCSEC_GSS_CREDPROBLEM
    GssCredential,
    /// RPCSEC_GSS_CTXPROBLEM
    GssContext,
}

impl AuthStat {
    /// Every one, in the order of their numbers.
    const ALL: [AuthStat; 15] = [
        AuthStat::Success,
        AuthStat::BadCredential,
        AuthStat::RejectedCredential,
        AuthStat::BadVerifier,
        AuthStat::RejectedVerifier,
        AuthStat::TooWeak,
        AuthStat::InvalidResponse,
        AuthStat::Failed,
        AuthStat::Kerberos,
        AuthStat::TimeExpired,
        AuthStat::TicketFile,
        AuthStat::Decode,
        AuthStat::NetAddress,
        AuthStat::GssCredential,
        AuthStat::GssContext,
    ];

    /// Its number on the wire.
    pub fn number(self) -> u32
        ensures { result ≡ auth_stat_number self }
    {
        self as u32
    }

    /// The one of this number on the wire, or `None` if there is none.
    #[tactic(auto, unfolding(crate::specs::Messages::auth_stat_of))]
    pub fn from_number(number: u32) -> Option<AuthStat>
        ensures { result ≡ auth_stat_of number }
    {
        find(&AuthStat::ALL, number)
    }
}

fn find(stats: &[AuthStat], number: u32) -> Option<AuthStat>
    ensures { result ≡ find (λ stat. auth_stat_number stat == number) stats.now }
{
    stats.iter().copied().find(|stat| stat.number() == number)
}
