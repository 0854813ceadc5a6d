ghost use Rattle.std.specs.Prelude.{◌≡◌, [], OnErr, OnOk};
ghost use Rattle.desk_front.specs.Service.{BreaksOff, Sends};

use desk_edge::{Failed, Link, write_all};
use desk_text::Bytes;

/// Replies are put together up to about so many bytes before they are written.
const MOST_WAITING: usize = 65_536;

/// Writes the replies that wait. Their room is kept for the next ones.
pub(crate) fn flush<L: Link>(link: &mut L, waiting: &mut Bytes) -> Result<(), Failed>
    ensures ok { OnOk result (Sends
        (record { waiting = waiting.old; written = L.written link.old; faults = L.faults link.old }) []
        (record { waiting = waiting.new; written = L.written link.new; faults = L.faults link.new })) }
    ensures empty { OnOk result (waiting.new ≡ []) }
    ensures err { OnErr result (BreaksOff
        (record { waiting = waiting.old; written = L.written link.old; faults = L.faults link.old }) []
        (record { waiting = waiting.new; written = L.written link.new; faults = L.faults link.new })) }
    ensures input_stays { L.unread link.new ≡ L.unread link.old }
{
    write_all(link, waiting.as_slice())?;
    waiting.truncate(0);
    Ok(())
}

/// Writes the replies that wait, where there are many.
pub(crate) fn flush_if_many<L: Link>(link: &mut L, waiting: &mut Bytes) -> Result<(), Failed>
    ensures ok { OnOk result (Sends
        (record { waiting = waiting.old; written = L.written link.old; faults = L.faults link.old }) []
        (record { waiting = waiting.new; written = L.written link.new; faults = L.faults link.new })) }
    ensures err { OnErr result (BreaksOff
        (record { waiting = waiting.old; written = L.written link.old; faults = L.faults link.old }) []
        (record { waiting = waiting.new; written = L.written link.new; faults = L.faults link.new })) }
    ensures input_stays { L.unread link.new ≡ L.unread link.old }
{
    if waiting.len() < MOST_WAITING {
        return Ok(());
    }
    flush(link, waiting)
}

/// Says these bytes: they wait with the replies before them, or are written behind them where there is no memory to wait in.
pub(crate) fn say<L: Link>(link: &mut L, waiting: &mut Bytes, said: &[u8]) -> Result<(), Failed>
    ensures ok { OnOk result (Sends
        (record { waiting = waiting.old; written = L.written link.old; faults = L.faults link.old }) said.now
        (record { waiting = waiting.new; written = L.written link.new; faults = L.faults link.new })) }
    ensures err { OnErr result (BreaksOff
        (record { waiting = waiting.old; written = L.written link.old; faults = L.faults link.old }) said.now
        (record { waiting = waiting.new; written = L.written link.new; faults = L.faults link.new })) }
    ensures input_stays { L.unread link.new ≡ L.unread link.old }
{
    match waiting.push_all(said) {
        Ok(()) => Ok(()),
        Err(_) => say_now(link, waiting, said),
    }
}

/// Writes the replies that wait, and these bytes behind them. It takes no memory.
pub(crate) fn say_now<L: Link>(link: &mut L, waiting: &mut Bytes, said: &[u8]) -> Result<(), Failed>
    ensures ok { OnOk result (Sends
        (record { waiting = waiting.old; written = L.written link.old; faults = L.faults link.old }) said.now
        (record { waiting = waiting.new; written = L.written link.new; faults = L.faults link.new })) }
    ensures err { OnErr result (BreaksOff
        (record { waiting = waiting.old; written = L.written link.old; faults = L.faults link.old }) said.now
        (record { waiting = waiting.new; written = L.written link.new; faults = L.faults link.new })) }
    ensures input_stays { L.unread link.new ≡ L.unread link.old }
{
    flush(link, waiting)?;
    write_all(link, said)
}
