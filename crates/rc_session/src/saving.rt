//! A save of the node takes the journal's place.

ghost use Rattle.std.specs.Prelude.{[], ◌≡◌, ◌↔◌, ◌<◌, ◌++◌, true, false, length, drop, IsTrue, Err, OnOk, OnErr};
ghost use Rattle.rc_keeping.specs.SaveClaims.{IsSaved};
ghost use Rattle.rc_process.specs.View.{save_begun, moved};
ghost use Rattle.rc_session.specs.View.{session_seen};
ghost use Rattle.rc_session.specs.Claims.{MaySave, MayEndSave};
ghost use Rattle.rc_session.specs.declared.faults.SessionFault.TheVariants as why;

use crate::faults::SessionFault;
use crate::moving::moved;
use crate::session::Session;
use rc_keeping::SaveFault;

impl Session {
    /// Begins a save, which is to be the second file: `take_second` gives it. From now on what has to be added to the
    /// journal belongs at the end of both files. When the second file is safe, and has taken the first one's place, and
    /// that is safe, call `saved`.
    ///
    /// # Errors
    ///
    /// `Refused`: what has to be added to the journal was not taken yet, or a save was begun. `NoMemory`. After each
    /// nothing has changed.
    #[tactic(auto, using(crate::proofs::Firsts::save_is_begun))]
    pub fn save(&mut self) -> Result<(), SessionFault>
        ensures saved { OnOk result (IsSaved self.old.process.node [] self.new.second) }
        ensures begun { OnOk result (session_seen self.new ≡ record (session_seen self.old) {
          process = save_begun (session_seen self.old).process (length self.new.second);
          second = self.new.second;
        }) }
        ensures refused { result ≡ Err why.Refused → MaySave (session_seen self.old) → ⊥ }
        ensures may { OnOk result (MaySave (session_seen self.old)) }
        ensures same { OnErr result (session_seen self.new ≡ session_seen self.old) }
    {
        if !self.journal.is_empty() || !self.second.is_empty() || self.process.is_saving() {
            return Err(SessionFault::Refused);
        }
        match self.process.begin_save(&mut self.second) {
            Ok(()) => Ok(()),
            Err(SaveFault::OutOfMemory) => Err(SessionFault::NoMemory),
            Err(SaveFault::Outside) => Err(SessionFault::NoMemory),
        }
    }

    /// How many bytes of the second file are to be taken.
    pub fn second_len(&self) -> usize
        ensures { result ≡ length self.now.second }
    {
        self.second.len()
    }

    /// Moves the second file to the front of the caller's bytes, if these are enough.
    pub fn take_second(&mut self, to: &mut [u8]) -> bool
        ensures taken { IsTrue result → self.new ≡ record self.old { second = [] } }
        ensures bytes { IsTrue result → to.new ≡ self.old.second ++ drop (length self.old.second) to.old }
        ensures room { (result ≡ false) ↔ (length to.old < length self.old.second) }
        ensures left { result ≡ false → self.new ≡ self.old }
        ensures same { result ≡ false → to.new ≡ to.old }
    {
        moved(&mut self.second, to)
    }

    /// The second file has taken the journal's place, and that is safe. From now on bytes are counted in the new file.
    /// Says whether it is taken note of: a save was begun, and was taken.
    pub fn saved(&mut self) -> bool
        ensures moved { IsTrue result → session_seen self.new ≡
            record (session_seen self.old) { process = moved (session_seen self.old).process } }
        ensures may { IsTrue result ↔ MayEndSave (session_seen self.old) }
        ensures same { result ≡ false → self.new ≡ self.old }
    {
        if !self.process.is_saving() || !self.second.is_empty() {
            return false;
        }
        self.process.saved();
        true
    }
}
