//! How callers see the values of a list of extractors.
use std::marker::PhantomData;
use web_extract::View;

/// The value of a list of one extractor, seen by this view.
pub struct SeenOne<V> {
    view: PhantomData<V>,
}

impl<X, V: View<X>> View<(X,)> for SeenOne<V> {
    ghost use Rattle.web_extract.specs.CollectedResults.{One};
    ghost use Rattle.web_extract.specs.SeenResults.{view1};

    ghost Seen = { One V.Seen };

    ghost view = { view1 V.view };
}

/// The values of a list of two extractors, each seen by its own view.
pub struct SeenTwo<V, W> {
    views: PhantomData<(V, W)>,
}

impl<X, Y, V: View<X>, W: View<Y>> View<(X, Y)> for SeenTwo<V, W> {
    ghost use Rattle.web_extract.specs.SeenResults.{view2};

    ghost Seen = { V.Seen × W.Seen };

    ghost view = { view2 V.view W.view };
}

/// The values of a list of three extractors, each seen by its own view.
pub struct SeenThree<V, W, T> {
    views: PhantomData<(V, W, T)>,
}

impl<X, Y, Z, V: View<X>, W: View<Y>, T: View<Z>> View<(X, Y, Z)> for SeenThree<V, W, T> {
    ghost use Rattle.web_extract.specs.SeenResults.{view3};

    ghost Seen = { V.Seen × W.Seen × T.Seen };

    ghost view = { view3 V.view W.view T.view };
}

/// The values of a list of four extractors, each seen by its own view.
pub struct SeenFour<V, W, T, U> {
    views: PhantomData<(V, W, T, U)>,
}

impl<X, Y, Z, Q, V: View<X>, W: View<Y>, T: View<Z>, U: View<Q>> View<(X, Y, Z, Q)>
    for SeenFour<V, W, T, U> {
    ghost use Rattle.web_extract.specs.SeenResults.{view4};

    ghost Seen = { V.Seen × W.Seen × T.Seen × U.Seen };

    ghost view = { view4 V.view W.view T.view U.view };
}
