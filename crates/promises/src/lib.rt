// The promises of a server for every implementation that meets the contracts of `open` and `call`.
#![tactic(auto)]

ghost use Rattle.promises.specs.Implementations.{EveryImplementation, AnImplementation};
ghost use Rattle.promises.specs.Pile.{PileByBytes, PileBytes};

// Every implementation that meets the contracts is right, keeps what it refuses, and has enough memory.
pub fn every_implementation() -> u8
    ensures { EveryImplementation }
{
    0
}

// There is such an implementation.
pub fn an_implementation() -> u8
    ensures { AnImplementation }
{
    0
}

// Every server for a pile of 5 gives these answers to these calls, byte for byte.
pub fn pile_by_bytes() -> u8
    ensures { PileByBytes }
{
    0
}

// The bytes of the pile game of 5, one by one.
pub fn pile_bytes() -> u8
    ensures { PileBytes }
{
    0
}
