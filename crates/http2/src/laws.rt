//! Laws of the definitions.

ghost use Rattle.std.specs.Prelude.{◌≡◌, ◌++◌, ℕ, List};
ghost use Rattle.std.specs.List.{AllByRecursion};
ghost use Rattle.http2.specs.Frame.{AreCut, data_of_all, stream_of};
ghost use Rattle.http2.specs.Trail.{Step, Line, Law, preface};
ghost use Rattle.http2.specs.Exchange.{ExchangeValue, Turn, Takes};
ghost use Rattle.http2.specs.Streams.{CallValue};
ghost use Rattle.http2.specs.Exchanged.{Goes};
ghost use Rattle.http2.specs.Bounds.{IsBounded};
ghost use Rattle.http2.specs.Separate.{KeepsOthers};
ghost use Rattle.http2.specs.Contents.{HasItsData};
ghost use Rattle.http2.specs.Unary.{UnaryValue, UnaryLaw};

/// Bytes are cut into frames in one way, however they came.
pub fn one_cutting()
    ensures { (bytes : List ℕ) (frames others : List (List ℕ)) (rest end : List ℕ) → AreCut bytes frames rest
        → AreCut bytes others end → (frames ≡ others) × (rest ≡ end) }
{}

/// What the core took, and then what waits for it, is a beginning of what the DATA frames bring that the peer's bytes
/// are.
pub fn core_takes_the_data()
    ensures { (trail : List Step) (came sent took gave : List ℕ) (line : Line) (frames : List (List ℕ)) (rest : List ℕ)
        → Law trail came sent took gave line → AreCut came frames rest
        → (more : List ℕ) × (data_of_all line.number frames ≡ (took ++ line.data_in) ++ more) }
{}

/// The peer reads frames in the bytes that were sent after the preface. Their data are a beginning of what the core
/// gave.
pub fn peer_reads_what_was_given()
    ensures { (trail : List Step) (came sent took gave : List ℕ) (line : Line) (bytes : List ℕ) (frames : List (List ℕ)) (rest : List ℕ)
        → Law trail came sent took gave line → sent ≡ preface ++ bytes → AreCut bytes frames rest
        → (more : List ℕ) × (gave ≡ data_of_all line.number frames ++ more) }
{}

/// All bytes are cut into frames in some way.
pub fn each_is_cut()
    ensures { (bytes : List ℕ) → (frames : List (List ℕ)) × (rest : List ℕ) × AreCut bytes frames rest }
{}

/// Streams of a server of unary calls do not mix: a frame changes its own stream alone.
pub fn streams_do_not_mix()
    ensures { (c : ExchangeValue) (frame : List ℕ) (turn : Turn) → Takes c frame turn
        → KeepsOthers (stream_of frame) c.streams turn }
{}

/// The content of each call that a server of unary calls gave is the data of its own stream, among all bytes that came.
pub fn content_is_the_streams_data()
    ensures { (most : ℕ) (trail : List Step) (came sent : List ℕ) (gave : List CallValue) (u : UnaryValue)
        → UnaryLaw most trail came sent gave u → AllByRecursion (HasItsData trail) gave }
{}

/// A server of unary calls keeps at most 100 streams, each with no more content than is taken.
pub fn streams_are_bounded()
    ensures { (most : ℕ) (trail : List Step) (c : ExchangeValue) (calls : List CallValue) → Goes most trail c calls
        → IsBounded c × (c.most ≡ most) }
{}
