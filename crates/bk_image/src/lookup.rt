// Objects that were read, found by their paths: they stand in the order of paths, so that they are searched by halves.

ghost use Rattle.std.specs.Prelude.{◌≡◌};
ghost use Rattle.bk_path.specs.Paths as paths;
ghost use Rattle.bk_image.specs.Objects as model;
ghost use Rattle.bk_image.specs.Views.{IsAscending};

use bk_object::Facts;
use bk_path::Path;
use bk_quota::FactsByPath;
use bk_state::ObjectRec;

/// The facts of the object at the path.
pub(crate) fn facts_at(objects: &[ObjectRec], path: Path) -> Option<Facts>
    requires { IsAscending objects.now }
    ensures { result ≡ model.facts_at (model.objects_in objects.now) path }
{
    match objects.binary_search_by_key(&path, |object| object.path) {
        Ok(place) => Some(objects[place].facts),
        Err(_) => None,
    }
}

/// Objects in the order of their paths, which tell the facts of each.
#[derive(Clone, Copy)]
pub(crate) struct ByPath<'a> {
    pub(crate) objects: &'a [ObjectRec],
    ghost ascending: { IsAscending objects.now },
}

impl<'a> FactsByPath for ByPath<'a> {
    ghost use Rattle.bk_state.specs.State.{Object};
    ghost use Rattle.bk_image.specs.Objects.{objects_in};

    ghost Kept = { Object };

    ghost facts_of = { λ object. object.facts };

    ghost objects = { λ all. objects_in all.objects.now };

    fn facts_at(&self, path: Path) -> Option<Facts> {
        facts_at(self.objects, path)
    }
}
