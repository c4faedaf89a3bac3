// The session as one who answers lines.
ghost use Rattle.std.specs.Prelude.{◌≡◌, ◌<◌, ◌≤◌, ◌+◌, ◌^◌, ℕ, Ok, option_map, IfOk, OnOk, IsErrOf};
ghost use Rattle.eb_outside.specs.Causes.{Rose};
ghost use Rattle.eb_outside.specs.declared.errors.OutsideError.TheVariants.{Fault};
ghost use Rattle.eb_serve.specs.Machines.{step};
ghost use Rattle.eb_session.specs.Requests.{request_of};
ghost use Rattle.eb_session.specs.declared.requests.Request.TheVariants.{Publish};
ghost use Rattle.eb_run.specs.Answering.{answering, most_answers, IsPublication, IsNextSection};
ghost use Rattle.eb_serve.specs.Remains.{KeepsBut};

use eb_base::{Steps, Text};
use eb_outside::{OutsideError, Shelf};
use eb_serve::Responder;
use eb_session::{LineMode, Session, SessionEnd};
use std::marker::{Brand, Model};
use std::sync::ledger::{Blank, Ledger};

/// Answers a line. Its steps are counted by themselves.
fn reply_to<H: Shelf, L: Ledger>(
    blank: Blank,
    session: &mut Session,
    line: &[u8],
    shelf: &mut H,
) -> Result<Text, OutsideError>
    requires name { blank.name ≡ L.name }
    requires parts { blank.parts ≡ L.parts }
    requires some { 0 < blank.parts }
    requires generation { session.old.generation < 2 ^ 62 }
    requires made { session.old.made + 65536 < 2 ^ 62 }
    ensures told { IfOk result (λ reply. option_map (answering line.now session.old) (H.files shelf.old) ≡ option_map (step reply session.new) (H.files shelf.new)) }
    ensures count { OnOk result (session.new.generation ≤ session.old.generation + 1) }
    ensures made { OnOk result (session.new.made ≤ session.old.made + 65536) }
    ensures later { H.faults shelf.old ≤ H.faults shelf.new }
    ensures cause { IsErrOf result Fault → Rose (H.faults shelf.old) (H.faults shelf.new) }
    ensures fails { IsErrOf result Fault → IsPublication line.now }
    ensures others { KeepsBut (IsNextSection session.old.generation) (H.files shelf.old) (H.files shelf.new) }
{
    let mut steps: Steps<L> = Steps::open(blank);
    match session.line(LineMode::Free, line, shelf, &mut steps) {
        Ok(reply) => Ok(reply.text),
        Err(SessionEnd::Shelf) => Err(OutsideError::Fault),
        Err(SessionEnd::Memory) => Err(OutsideError::Memory),
    }
}

/// A session that answers lines. Contracts see it as a state of the machine.
pub struct Answering {
    session: Session,
}

impl Model for Answering {
    ghost use Rattle.eb_session.specs.Machine.{State};
    ghost use Rattle.eb_session.specs.contracts.sessions.Session as held;

    ghost Value = { State };

    ghost coded = { held.the_row.coded };

    ghost view = { λ a. a.session };
}

impl Answering {
    /// The session, ready for lines.
    pub fn of(session: Session) -> Self
        ensures { result ≡ session }
    {
        Answering { session }
    }

    /// Lets the session go.
    pub fn close(self) {
        let Answering { session } = self;
        session.close();
    }
}

impl Responder for Answering {
    ghost use Rattle.std.specs.Prelude.{IsOk};
    ghost use Rattle.std.proofs.Common.{ap, sym, refl, ◌∙◌, subst};
    ghost use Rattle.std.proofs.lemmas.Bool.{false≢true};
    ghost use Rattle.eb_session.specs.Machine.{replied};
    ghost use Rattle.eb_session.proofs.RequestFacts.{request_of-long};
    ghost use Rattle.eb_run.specs.Answering.{answering, as_step, answered-by, most_answers, IsPublication, IsNextSection};

    ghost answered = { answering };

    ghost answers_left = { most_answers };

    ghost may_fail = { IsPublication };

    ghost written = { λ state. state.generation };

    ghost names = { IsNextSection };

    ghost long_alike = { λ a b long_a long_b state files. ap as_step (answered-by a state files ∙ ap (λ r. replied r state files) (request_of-long a long_a ∙ sym (request_of-long b long_b)) ∙ sym (answered-by b state files)) };

    ghost none_long = { λ line long publishes. false≢true (subst IsOk (sym publishes ∙ request_of-long line long) refl) };

    fn answer<H: Shelf>(&mut self, line: &[u8], shelf: &mut H) -> Result<Text, OutsideError> {
        let reply = reply_to::<H, Brand>(Blank::new(1), &mut self.session, line, shelf)?;
        Ok(reply)
    }
}
