// The entities of an object: their names, and references to them.
ghost use Rattle.std.specs.Prelude.{◌≡◌};
ghost use Rattle.eb_eval.specs.Entities.{own_entity, extra_entity, link_where};

use crate::ids::RunId;
use eb_base::Name;
use eb_meaning::Link;

/// The last place of an extra in the text of a baker.
const LAST_EXTRA: usize = 15;

/// The object's own entity.
pub fn own_entity(scene: u8, object: u32) -> Name
    ensures { result ≡ own_entity scene object }
{
    Name {
        play: 0,
        scene: u32::from(scene),
        object,
        extra: 0,
    }
}

/// The extra of a place in the text of the run's baker, from 0.
pub fn extra_entity(id: RunId, place: usize) -> Name
    ensures { result ≡ extra_entity id place }
{
    Name {
        play: 0,
        scene: u32::from(id.scene),
        object: id.object,
        extra: u32::from(id.baker) * 16 + place.min(LAST_EXTRA) as u32 + 1,
    }
}

/// A reference to an object: to its own entity where it is there, and else to none.
pub fn link_where(there: bool, scene: u8, object: u32) -> Link
    ensures { result ≡ link_where there scene object }
{
    if there {
        Link::To(own_entity(scene, object))
    } else {
        Link::Null
    }
}
