//! What the calls of a decoder tell C: each definition holds of one answer, and refuses another.
ghost use Rattle.std.specs.Prelude.{◌≡◌, [], ◌≤◌, List, ℕ, Ok, Err, None, false, length};
ghost use Rattle.hevc_driver.specs.declared.decode_error.DecodeError.TheVariants.{NoNal};
ghost use Rattle.hevc_events.specs.declared.event.Event.{Event};
ghost use Rattle.hevc_parser.specs.declared.parser.Parser.{Parser};
ghost use Rattle.hevc_pull.specs.declared.calls.DecodeCall.{DecodeCall};
ghost use Rattle.hevc_pull.specs.declared.decoder.PullDecoder.{PullDecoder};
ghost use Rattle.hevc_pull.specs.declared.reads.UnitRead.{UnitRead};
ghost use Rattle.hevc_pull.specs.Calls.{answered, Decodes, TakesNext};
ghost use Rattle.hevc_pull.specs.Controls.{Fills};
ghost use Rattle.hevc_stateless.specs.States.{is_awaited};
ghost use Rattle.hevc_pull.specs.Reads.{Reads};
ghost use Rattle.hevc_pull.specs.Extents.{no_extent};
ghost use Rattle.hevc_pull.specs.Units.{lying};
ghost use Rattle.hevc_pull.specs.Pulling.{AreTaken};
ghost use Rattle.hevc_pull.specs.Views.{seen_of, view_in, with_free_frames};

/// Of no bytes no unit is taken, which status 1 tells; status 0 doesn't.
pub fn decoded()
    ensures none { (now : PullDecoder) (given : DecodeCall)
        → with_free_frames given.free_frames (seen_of now) ≡ seen_of now
        → Decodes [] now now given (answered {T = Unit {0}} [] (Err NoNal) given) 1 }
    ensures taken { (before now : PullDecoder) (given told : DecodeCall)
        → Decodes [] before now given told 0 → ⊥ }
{}

/// Where all was taken, and no picture is counted, no event is told; no answer is 2.
pub fn pulled()
    ensures none { (now : PullDecoder) (event : Event) → AreTaken (view_in now)
        → now.counted.items ≡ [] → is_awaited (view_in now).state ≡ false
        → TakesNext now now event event 0 }
    ensures two { (before now : PullDecoder) (old new : Event)
        → TakesNext before now old new 2 → ⊥ }
{}

/// Where there is nothing to fill a struct by, status 19 tells it; status 0 doesn't.
pub fn filled()
    ensures none { (struct : ℕ) → Fills None struct struct 19 }
    ensures some { (struct : ℕ) → Fills None struct struct 0 → ⊥ }
{}

/// Of no bytes no unit is read, which status 1 tells; status 0 doesn't.
pub fn read()
    ensures none { (now : Parser) (read : UnitRead)
        → Reads [] now now read (record read { unit = lying no_extent }) 1 }
    ensures some { (before now : Parser) (old new : UnitRead)
        → Reads [] before now old new 0 → ⊥ }
{}
