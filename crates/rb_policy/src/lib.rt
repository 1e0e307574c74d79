//! What the daemon decides about its sockets, as functions of plain values: no socket is called here.
#![tactic(auto)]

mod addresses;
mod asks;
mod brake;
pub mod caller_rate;
mod checked;
mod deadlines;
mod door;
pub mod drains;
mod evidence;
pub mod handed;
mod keep_file;
pub mod laws;
mod local_file;
pub mod log_choice;
pub mod log_lines;
pub mod log_rate;
pub mod machine;
mod moments;
mod networks;
mod origin;
mod outcome;
mod peers;
mod places;
mod recent;
mod record_file;
pub mod rounds;
mod share;
mod trust;
mod turns;
mod user_namespace;
mod waits;
mod watchdog;
mod ways_back;

pub use addresses::{
    ANY, LOOPBACK, LOOPBACK6, announced_inet, announced_inet6, binds_every_inet, binds_loopback6,
    forwards_inet, forwards_inet6, has_every_host, has_every_inet, has_host, is_no_address,
};
pub use asks::{Held, held_in, may_change};
pub use brake::{Brake, Rate};
pub use checked::checked_at;
pub use deadlines::{Deadlines, is_behind};
pub use door::{Admission, Holder, OWED, admit, standing_outside, stuck_at};
pub use evidence::{Evidence, evidence_of, is_shown, looks_in, shown_after, sight_in};
pub use keep_file::{Distrust, KeepAction, KeepState, Writers, keep_action};
pub use local_file::{
    FileAction, FileState, SeenFile, entrance_now, entrance_of, file_action, is_nothing_there,
    next_try, obstacle_text, state_by_connect, takes_abstract_name,
};
pub use moments::Moments;
pub use networks::{asker, may_ask};
pub use origin::{ACTIVE, Origin, is_local, is_unawaited, origin_now, origin_of};
pub use outcome::{
    Next, SocketResult, after_accept, after_read, after_receive, after_write, outcome_of,
    outcome_of_count,
};
pub use peers::{address_of, ip_of, sender};
pub use places::PlaceKey;
pub use record_file::{RecordAction, RecordState, record_action};
pub use share::Share;
pub use trust::{Beliefs, Entrance, lets_in_root_alone, trust_of};
pub use turns::{
    Again, LAST_ROUND, MOST_HELD, RETRY, Round, SOCKET_CALLS, STEP, accept_count, after_all_calls,
    is_cut_off, others_of, place_count, reads_on, round_of, serves_another, wait_of,
};
pub use user_namespace::unmapped_uid;
pub use waits::{AfterWait, Waits};
pub use watchdog::{Watchdog, watchdog_pause};
pub use ways_back::WaysBack;
