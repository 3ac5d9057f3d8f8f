//! Two things, of which the second may fail.
//!
//! The data of a write are made last, once all else of the line is known to be good. A word that is longer than any name's isn't read as
//! a name. Values of attributes, omaps and headers are kept as they are spelled too, until the line is used.
ghost use Rattle.std.specs.Prelude.{◌≡◌, Ok, Err, MatchResult};

/// Both of them, where there is a second one; the first one is dropped where there is none.
pub fn both<A: Drop, B: Drop, E: Drop>(first: A, second: Result<B, E>) -> Result<(A, B), E>
    ensures { MatchResult result (λ x. (x.0 ≡ first) × (second ≡ Ok x.1)) (λ why. second ≡ Err why) }
{
    match second {
        Ok(second) => Ok((first, second)),
        Err(why) => {
            drop(first);
            Err(why)
        }
    }
}
