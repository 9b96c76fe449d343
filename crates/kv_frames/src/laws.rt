ghost use Rattle.kv_frames.specs.Laws.{OneRequest, OneReply, OneSplit, OneReading, OneOutcome};
ghost use Rattle.kv_frames.specs.Laws.{OneTranscript, WrittenAgain, PartialBeginsNone};
ghost use Rattle.kv_frames.specs.Laws.{MalformedStays};
ghost use Rattle.kv_frames.specs.Laws.{NextRequest, NextPiece};

use kv_model::{groups_hold_requests, one_grouping};

/// A request has one frame at most, and no request's frame begins another: bytes begin with one
/// request at most, and it leaves one rest.
pub fn one_request()
    ensures { OneRequest }
{}

/// A reply has one frame at most, and no reply's frame begins another.
pub fn one_reply()
    ensures { OneReply }
{}

/// The bytes of a stream determine its requests and what is left behind them.
pub fn one_split()
    ensures { OneSplit }
{}

/// What is written is read again, whatever follows: bytes that `put_request` or `put_reply` wrote
/// begin with the value's frame, and so `parse_request` and `parse_reply` find it.
pub fn written_again()
    ensures { WrittenAgain }
{}

/// A part of a frame begins with no frame, and isn't malformed.
pub fn partial_begins_none()
    ensures { PartialBeginsNone }
{}

/// What is malformed stays so: more bytes change nothing.
pub fn malformed_stays()
    ensures { MalformedStays }
{}

/// A stream grows by the request at the front of its rest.
pub fn next_request()
    ensures { NextRequest }
{}

/// A piece that comes belongs to the rest of the stream.
pub fn next_piece()
    ensures { NextPiece }
{}

/// A stream is the same requests with the same rest behind them, in whatever pieces it came.
pub fn one_reading()
    ensures { OneReading }
{}

/// What went out of a list of replies and what is left of it determine the list.
pub fn one_outcome()
    ensures { OneOutcome }
{}

/// What a session took and gave, what is left and why it ended tell which groups of requests it
/// handled and what it replied to each request.
pub fn one_transcript()
    ensures { OneTranscript }
{
    groups_hold_requests();
    one_grouping();
}
