//! The views on which a view with an index can stand.

ghost use Rattle.std.specs.Prelude.{◌≡◌, refl};
ghost use Rattle.mv_view.specs.Viewing.{Sight};

use mv_view::plain::Plain;
use mv_view::view::View;

/// What a view sees, whatever the time for which it lends rows. So a type's invariant can speak of a view in it.
pub trait Sighted {
    /// Its database, its start and its counts, as `View` tells them.
    ghost seen: { Self → Sight };
}

/// A view on which a view with an index can stand.
pub trait Indexable<'s>: View<'s> + Sighted {
    /// It sees the same by both traits.
    ghost alike: { (view : Self) → Self.sight view ≡ Self.seen view };
}

impl<'a> Sighted for Plain<'a> {
    ghost seen = { λ view. view };
}

impl<'a> Indexable<'a> for Plain<'a> {
    ghost alike = { λ view. refl };
}
