//! The only item of a list.

ghost use Rattle.std.specs.Prelude.{option_map};
ghost use Rattle.lk_env.specs.Only.{IsOnly};

/// The only item, where there is exactly one.
pub fn only<X>(items: &[X]) -> Option<&X>
    ensures { IsOnly items.now (option_map (λ x. x.now) result) }
{
    match items {
        [item] => Some(item),
        _ => None,
    }
}
