// What an event is to the groups of its variable or lock.
ghost use Rattle.follow.specs.Roles.{RoleOf};

use crate::object::Object;
use events::{Event, Kind, LOCKS, VARIABLES};

// How an event stands to a group.
pub(crate) enum Role {
    // a write or an acquire: it leads a group of this object
    Lead(Object),
    // a read or a release: it takes its place in a group of this object
    Take(Object),
    // of no group
    Apart,
}

// The role of an event, by its kind and its subject.
pub(crate) fn role_of(event: Event) -> Role
    ensures { RoleOf event.kind event.subject result }
{
    let subject = event.subject;
    match Kind::try_from(event.kind) {
        Ok(Kind::Read) if (subject as usize) < VARIABLES => Role::Take(Object::variable(subject)),
        Ok(Kind::Write) if (subject as usize) < VARIABLES => Role::Lead(Object::variable(subject)),
        Ok(Kind::Acquire) if (subject as usize) < LOCKS => Role::Lead(Object::lock(subject)),
        Ok(Kind::Release) if (subject as usize) < LOCKS => Role::Take(Object::lock(subject)),
        _ => Role::Apart,
    }
}
