// What a store tells of itself beyond its meaning.
ghost use Rattle.store.specs.Meaning.{Change};

/// Which values a store may be after each change, beside what the change does to its meaning. A store whose next value is a
/// function of what it is tells `exactly` that function; one that can't know it, as where a sensor is read, tells `nothing`.
/// The law of a node does not rest on it.
pub trait Told {
    // By the change, the value before and the value after; of a draw, where it is accepted.
    ghost after: { Change → Self → Self → Type 0 };
}
