//! How a session parts from its user.

ghost use Rattle.std.specs.Prelude.{◌≡◌, List};
ghost use Rattle.safety_automaton.specs.Keys as keys;
ghost use Rattle.loop_model.specs.Sessions.{parted};
ghost use Rattle.loop_session.specs.Parts.{rules_of_session};
ghost use Rattle.loop_session.specs.Keeping.{kept_ends};

use crate::gone::Gone;
use crate::session::Session;
use crate::when::When;
use er_users::SafeUser;

impl<U: SafeUser> Session<U> {
    // The user hears of the release of the end, and is let go.
    pub(crate) fn part(&mut self, when: &When)
        ensures parts { (entries : List keys.KmacEntry) → self.new ≡ parted kept_ends (rules_of_session entries when.now.setup) when.now.moment self.old }
        ensures number { self.new.number ≡ self.old.number }
    {
        let Some(why) = self.end.released() else {
            return;
        };
        if let Some(mut user) = self.user.take() {
            user.released(why.reason, why.sub, why.by_peer);
            self.gone = Some(Gone::of(&user));
            self.closing = Some(when.closing());
        }
    }
}
