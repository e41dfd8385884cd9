//! What may leave, coded, into the caller's room.

ghost use Rattle.std.specs.Prelude.{◌≡◌, ◌++◌, ◌<◌, true, false, length, Some, None, OnOk, IfOk, IsTrue};
ghost use Rattle.rc_session.specs.View.{session_seen, framed, all_framed, hand_code};
ghost use Rattle.rc_session.specs.Claims.{IsInHand, IfLeft, IfNoRoom, HasLeft, HasNoRoom, MustWait};
ghost use Rattle.rc_session.specs.declared.leaving.Leaving.TheVariants as leaving;

use crate::moving::copied;
use crate::session::Session;
use rc_codec::{Put, encode_message};
use rc_types::{Message, Seq};
use std::alloc::{AllocError, Global};

/// Room for what one step sends, coded. It grows where that is not enough.
const ROOM_OF_STEP: usize = 512;

/// Room for one message, coded. It grows where that is not enough.
const ROOM_OF_MESSAGE: usize = 256;

/// What has become of what one step has sent.
#[derive(Clone, Copy, Debug, PartialEq, Eq)]
pub enum Leaving {
    /// It has left, and takes so many of the caller's bytes.
    Left(usize),
    /// It stays, since it takes so many bytes, and the caller has fewer.
    NoRoom(usize),
    /// Nothing may leave now.
    Waits,
    /// Memory was refused. Nothing is lost: call again later.
    NoMemory,
}

impl Session {
    /// Lets what one step has sent leave: moves it to the front of the caller's bytes, each message behind its length
    /// in four bytes, if they are enough. A step may have sent nothing, which takes no bytes. Call it until nothing may
    /// leave.
    #[tactic(auto, using(crate::proofs::Leavings::has_left, crate::proofs::Leavings::has_no_room))]
    pub fn leave(&mut self, to: &mut [u8]) -> Leaving
        ensures left { IfLeft result (HasLeft (session_seen self.old) (session_seen self.new) to.old to.new) }
        ensures stays { IfNoRoom result (HasNoRoom (session_seen self.old) (session_seen self.new) to.old to.new) }
        ensures waits { result ≡ leaving.Waits → MustWait (session_seen self.old) }
        ensures none { result ≡ leaving.Waits → session_seen self.new ≡ session_seen self.old }
        ensures kept { result ≡ leaving.NoMemory → IsInHand (session_seen self.old) (session_seen self.new) }
    {
        if !self.take_in_hand() {
            return Leaving::Waits;
        }
        let Ok(code) = self.hand_code() else {
            return Leaving::NoMemory;
        };
        let count = code.len();
        if !copied(code.as_slice(), to) {
            return Leaving::NoRoom(count);
        }
        self.hand = None;
        Leaving::Left(count)
    }

    /// What is in hand, coded.
    fn hand_code(&self) -> Result<Vec<u8>, AllocError>
        ensures { IfOk result (λ code. code.items ≡ hand_code self.now.hand) }
    {
        let Some(messages) = &self.hand else {
            return Ok(Vec::new(self.alloc));
        };
        match messages.as_slice() {
            [] => Ok(Vec::new(self.alloc)),
            messages => {
                let mut code = Vec::with_capacity(self.alloc, ROOM_OF_STEP)?;
                put_framed(self.alloc, messages, &mut code)?;
                Ok(code)
            }
        }
    }

    /// Takes in hand what one step has sent and may leave, if nothing is there. Says whether something is.
    #[tactic(auto, using(crate::proofs::Leavings::was_in_hand, crate::proofs::Leavings::came_in_hand))]
    fn take_in_hand(&mut self) -> bool
        ensures held { IsTrue result → IsInHand (session_seen self.old) (session_seen self.new) }
        ensures waits { result ≡ false → MustWait (session_seen self.old) }
        ensures none { result ≡ false → session_seen self.new ≡ session_seen self.old }
    {
        if let Some(_) = &self.hand {
            return true;
        }
        match self.process.leave() {
            Some(messages) => {
                self.hand = Some(Seq::from_vec(messages));
                true
            }
            None => false,
        }
    }
}

/// Adds each message behind the length of its coding. Where memory is refused some of it may stand there.
fn put_framed(alloc: Global, messages: &[Message], out: &mut Vec<u8>) -> Result<(), AllocError>
    ensures { OnOk result (out.new.items ≡ out.old.items ++ all_framed messages.now) }
{
    let mut room = Vec::with_capacity(alloc, ROOM_OF_MESSAGE)?;
    for message in messages {
        put_frame(message, &mut room, out)?;
    }
    Ok(())
}

/// One message behind the length of its coding, which is made in a room that serves for the next one too.
fn put_frame(message: &Message, room: &mut Vec<u8>, out: &mut Vec<u8>) -> Result<(), AllocError>
    ensures { OnOk result (out.new.items ≡ out.old.items ++ framed message.now) }
{
    room.clear();
    encode_message(message, room)?;
    let Ok(length) = u32::try_from(room.len()) else {
        return Err(AllocError);
    };
    length.put(out)?;
    out.extend_from_slice(room.as_slice())
}
