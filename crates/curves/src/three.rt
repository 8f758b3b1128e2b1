// What is worked out on each of the three curves.
ghost use Rattle.std.specs.Prelude.{◌≡◌};
ghost use Rattle.std.specs.Fn.{FnReturnsAt};
ghost use Rattle.method.specs.Curve.{Move};
ghost use Rattle.curves.specs.inner.Three.{on, TakesAt, TakesAtPair, ReturnsAtPair};

/// Of the base, the up and the down curve.
#[derive(Clone, Copy)]
pub struct Three<T> {
    pub base: T,
    pub up: T,
    pub down: T,
}

impl<T> Three<T> {
    /// The same done on each curve.
    pub fn map<U, F: Fn(&T) -> U>(&self, f: F) -> Three<U>
        requires { (m : Move) → TakesAt F.Fn f (on self.now m) }
        ensures { (m : Move) → FnReturnsAt F.Fn f (on self.now m) (on result m) }
    {
        Three {
            base: f(&self.base),
            up: f(&self.up),
            down: f(&self.down),
        }
    }

    /// The same done with two things of each curve.
    pub fn map_with<V, U, F: Fn(&T, &V) -> U>(&self, other: &Three<V>, f: F) -> Three<U>
        requires { (m : Move) → TakesAtPair F.Fn f (on self.now m) (on other.now m) }
        ensures { (m : Move) → ReturnsAtPair F.Fn f (on self.now m) (on other.now m) (on result m) }
    {
        Three {
            base: f(&self.base, &other.base),
            up: f(&self.up, &other.up),
            down: f(&self.down, &other.down),
        }
    }
}
