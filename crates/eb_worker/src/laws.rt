// What the definitions determine.
ghost use Rattle.eb_worker.specs.Recording.{HasOneSort};

use crate::recorder::{Keyed, Recorder};

/// The law that there is one sorted list: whoever sorts the lists of these items, has the list that `record_all` answers.
pub fn one_list_is_sorted<E: Keyed, R: Recorder<E>>(recorder: &R)
    ensures { HasOneSort E.key_of (R.lists recorder.now) }
{
    let _ = recorder;
}
