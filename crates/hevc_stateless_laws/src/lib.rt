//! The standing after each unit of a stream, and the moment of each call and output.
#![tactic(auto)]

ghost use Rattle.std.specs.Prelude.{◌≡◌, ◌+◌, ◌∷◌, ◌++◌, [], ℕ, List, drop, length, map, Ok, Err};
ghost use Rattle.hevc_spec.specs.Units.{NalUnit, units};
ghost use Rattle.hevc_stream.specs.Kept.{none_kept};
ghost use Rattle.hevc_stream.specs.Options.{Options};
ghost use Rattle.hevc_driver.specs.Given.{Given};
ghost use Rattle.hevc_stateless.specs.Steps.{Seen, TakesFirst};
ghost use Rattle.hevc_stateless.specs.Views.{at_beginning, traces_of};
ghost use Rattle.hevc_stateless_laws.specs.Shortened.{moved};
ghost use Rattle.hevc_stateless_laws.specs.Stands.{StandsAfter, StandsBetween, Took, Opened};
ghost use Rattle.hevc_stateless_laws.specs.Stands.{TookAgain, IsRefusal, RefusedUnit, Ended, meant};
ghost use Rattle.hevc_walk.specs.Refusals.{DpbFull as full_buffer};
ghost use Rattle.hevc_walk.specs.Results.{verdict};
ghost use Rattle.hevc_stateless.specs.Flushes.{Ends};
ghost use Rattle.hevc_driver.specs.declared.decode_error.DecodeError.{DecodeError};
ghost use Rattle.hevc_driver.specs.declared.decode_error.DecodeError.TheVariants.{CheckEvents};
ghost use Rattle.hevc_driver.specs.declared.decode_error.DecodeError.TheVariants.{DpbFull};
ghost use Rattle.hevc_stateless.specs.declared.state.State.TheVariants.{Decoding};

/// A decoder at the beginning of a stream is after no units.
pub fn stands_at_the_beginning<B, H>()
    ensures { (options : Options) (seen : Seen B H) (backend : B)
        → seen.view ≡ at_beginning backend → seen.kept ≡ none_kept
        → StandsAfter options [] seen }
{}

/// Where a decoder is after some units of a stream and takes the next one, it is after that one
/// too. Its log grew by exactly the calls at that unit, each new picture with the timestamp given,
/// and its queue by exactly the pictures that are output there.
pub fn takes_the_next_unit<B, H>()
    ensures { (timestamp : ℕ) (options : Options) (us others : List NalUnit) (u : NalUnit)
        (old new : Seen B H) (place : ℕ) → StandsAfter options us old
        → TakesFirst (u ∷ others) (Ok place) timestamp options old new
        → Took timestamp options us u old new }
{}

/// Where all bytes up to the end of the first unit are left out, as `decode` answers them, the
/// units of what is left are the others: calls on the shortened input take the units of the stream
/// in their order.
pub fn others_are_left()
    ensures { (stream : List ℕ) (u : NalUnit) (others : List NalUnit)
        → units stream ≡ u ∷ others
        → others ≡ map (moved (u.offset + length u.bytes))
        (units (drop (u.offset + length u.bytes) stream)) }
{}

/// Where the answer is `CheckEvents`, the unit opened a negotiation: all up to there was done, and
/// all its outputs are in the queue.
pub fn opens_a_negotiation<B, H>()
    ensures { (timestamp : ℕ) (options : Options) (us others : List NalUnit) (u : NalUnit)
        (old new : Seen B H) → StandsAfter options us old
        → TakesFirst (u ∷ others) (Err CheckEvents) timestamp options old new
        → Opened timestamp options us u old new }
{}

/// Where its format was accepted and the unit is given again, the decoder is after it. Nothing is
/// output twice, and both calls together made its calls.
pub fn takes_the_unit_again<B, H>()
    ensures { (timestamp : ℕ) (options : Options) (us others : List NalUnit) (u : NalUnit)
        (old new : Seen B H) (place : ℕ) → StandsBetween options us u old
        → old.view.state ≡ Decoding
        → TakesFirst (u ∷ others) (Ok place) timestamp options old new
        → TookAgain timestamp options us u old new }
{}

/// Where a unit is refused for what it is, the stream's definitions refuse it there for a cause of
/// that name: that is the answer to the stream, whatever comes after. What comes before the refusal
/// was done.
pub fn refuses_a_unit<B, H>()
    ensures { (error : DecodeError) (timestamp : ℕ) (options : Options)
        (us others : List NalUnit) (u : NalUnit) (old new : Seen B H) → IsRefusal error
        → StandsAfter options us old
        → TakesFirst (u ∷ others) (Err error) timestamp options old new
        → RefusedUnit error timestamp options us u old new }
{}

/// Where a picture is to be stored into a full buffer at a unit, that is the answer to the stream,
/// whatever comes after.
pub fn fills_the_buffer<B, H>()
    ensures { (timestamp : ℕ) (options : Options) (us others back : List NalUnit) (u : NalUnit)
        (old new : Seen B H) → StandsAfter options us old
        → TakesFirst (u ∷ others) (Err DpbFull) timestamp options old new
        → verdict (meant options (us ++ u ∷ back))
        ≡ Err (record { unit = length us; cause = full_buffer }) }
{}

/// Where a decoder is after all units of a stream and is flushed, the answer to the stream is the
/// number of its pictures, and the calls and outputs at its end were made.
pub fn ends_the_stream<B, H>()
    ensures { (given : Given) (options : Options) (us : List NalUnit) (old new : Seen B H)
        → StandsAfter options us old
        → Ends given (traces_of old.log old.handed old.asked old.view)
        (traces_of new.log new.handed new.asked new.view)
        old.view.state old.view.standing new.view.standing
        → Ended given options us old new }
{}
