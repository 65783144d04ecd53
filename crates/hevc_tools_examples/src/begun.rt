//! Streams that begin at the first picture of another.

ghost use Rattle.hevc_walk.specs.Pictures.{Picture};
ghost use Rattle.hevc_stream_examples.specs.Worked.{idr_stream, longer_idr_stream, ended_stream, ended_twice_stream};
ghost use Rattle.hevc_tools_examples.specs.Begun.{Begins, IsFirst};

/// A stream of one picture is decoded as it is from this picture on.
pub fn right_beginnings()
    ensures { (p : Picture) → IsFirst p → Begins p 1 idr_stream idr_stream }
{}

/// A picture more; a slice of other bytes; an output at another unit.
pub fn wrong_beginnings()
    ensures verdict { (p : Picture) → IsFirst p → Begins p 2 idr_stream idr_stream → ⊥ }
    ensures calls { (p : Picture) → IsFirst p → Begins p 1 idr_stream longer_idr_stream → ⊥ }
    ensures outputs { (p : Picture) → IsFirst p → Begins p 1 ended_stream ended_twice_stream → ⊥ }
{}

/// The same, by what the stream asks for and is told from the bytes.
pub fn wrong_wholes()
    ensures calls { (p : Picture) → IsFirst p → Begins p 1 idr_stream longer_idr_stream → ⊥ }
    ensures outputs { (p : Picture) → IsFirst p → Begins p 1 ended_stream ended_twice_stream → ⊥ }
{}
