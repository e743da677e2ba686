// One of two values. Both are given.
ghost use Rattle.std.specs.Prelude.{◌≡◌};
ghost use Rattle.yaml_text.specs.Pick.{pick};

pub fn pick<T: Drop>(b: bool, x: T, y: T) -> T
    ensures { result ≡ pick b x y }
{
    if b { x } else { y }
}
