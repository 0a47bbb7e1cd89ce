//! A number joins the order at its end, and leaves it without disturbing the others.

ghost use Rattle.std.specs.Prelude.{◌≡◌, ◌<◌, ◌==◌, not, ◌∷◌, ◌++◌, [], filter, length, vec_capacity};

/// Puts a number last. There is room for it.
pub fn join(order: &mut Vec<u32>, gfn: u32)
    requires { length order.old.items < vec_capacity order.old }
    ensures order { order.new.items ≡ order.old.items ++ gfn ∷ [] }
    ensures room { vec_capacity order.new ≡ vec_capacity order.old }
{
    order.push_reserved(gfn);
}

/// Takes a number out. The others stay in their order.
pub fn leave(order: &mut Vec<u32>, gfn: u32)
    ensures order { order.new.items ≡ filter (λ n. not (n == gfn)) order.old.items }
    ensures room { vec_capacity order.new ≡ vec_capacity order.old }
{
    order.retain(|n| *n != gfn);
}
