// What holds of the demonstration's group.
ghost use Rattle.std.specs.Prelude.{◌≡◌, length};
ghost use Rattle.rvs_demo.specs.Label.{points};

/// Each key of the group says something: it has 39 points.
pub fn each_key_is_a_point()
    ensures { length points ≡ 39 }
{}
