// What a lock does at an event.
ghost use Rattle.std.specs.Prelude.{◌≡◌};
ghost use Rattle.events.specs.First.{first_fit};
ghost use Rattle.events.specs.Kinds.{kind_number};
ghost use Rattle.trace.specs.Steps.{lock_tests, or_else, after, lock_by};

use events::{Kind, Lock, Refusal};

// The lock takes in its acquire or release by the thread. Whether it may comes first, and then
// whether there is room for the event; a refusal changes nothing.
// Stays a parameter: the room, since the lock is written in place here, and only where there is room.
pub(crate) fn turn(
    lock: &mut Lock,
    kind: Kind,
    thread: u8,
    room: Result<(), Refusal>,
) -> Result<(), Refusal>
    ensures says { result ≡ or_else (first_fit (lock_tests lock.old (kind_number kind) thread)) room }
    ensures next { lock.new ≡ after result (lock_by (kind_number kind) thread lock.old) lock.old }
{
    match (*lock, kind) {
        (Lock::Free, Kind::Acquire) => {
            room?;
            *lock = Lock::Held(thread);
            Ok(())
        }
        (Lock::Held(holder), Kind::Release) if holder == thread => {
            room?;
            *lock = Lock::Free;
            Ok(())
        }
        (Lock::Held(_), Kind::Acquire) => Err(Refusal::Held),
        (_, Kind::Release) => Err(Refusal::NotHolder),
        _ => room,
    }
}
