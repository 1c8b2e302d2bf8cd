//! The lines of channels, one each, as many as there are: the first line that is none of a channel is the first goroutine's. A channel's
//! line has at most 4,096 values, so its words find room that is taken once, of a text of which nothing is known yet.
ghost use Rattle.std.specs.Prelude.{◌≡◌, ◌≤◌, map, length, IfOk, MatchOption};
ghost use Rattle.gmp_start.specs.Start.{channel_of};
ghost use Rattle.gmp_trace.specs.StartNext.{IsNext, AreChannels, NoChannel, behind_channels, chan_line};

use crate::start::at::channel_at;
use crate::start::heads::are_words;
use gmp_seq::Limits;
use gmp_start::StartChannel;
use std::alloc::{AllocError, Global};

/// The channel of the next number, where its line stands there and is right, and the text behind the line.
fn channel_next<'a>(
    alloc: Global,
    limits: Limits,
    bodies: u16,
    count: u16,
    text: &'a [u8],
    words: &mut Vec<&'a [u8]>,
    line: &mut Vec<u8>,
) -> Result<Option<(StartChannel, &'a [u8])>, AllocError>
    ensures { IfOk result (λ o. MatchOption o (NoChannel limits bodies count text.now) (λ r. IsNext limits bodies (behind_channels count) text.now (chan_line count (channel_of r.0)) r.1.now)) }
{
    let Some((c, channel, rest)) = channel_at(alloc, text, words, line)? else {
        return Ok(None);
    };
    if c != count || c >= limits.channels || channel.capacity > 4096 || channel.items.len() > 4096 {
        return Ok(None);
    }
    are_words(&channel.items);
    Ok(Some((channel, rest)))
}

/// All channels whose lines stand there, how many they are, and the text behind them.
pub fn channels_of<'a>(
    alloc: Global,
    limits: Limits,
    bodies: u16,
    text: &'a [u8],
    words: &mut Vec<&'a [u8]>,
    line: &mut Vec<u8>,
) -> Result<(Vec<StartChannel>, u16, &'a [u8]), AllocError>
    ensures right { IfOk result (λ r. AreChannels limits bodies text.now (map channel_of r.0.items) r.2.now) }
    ensures count { IfOk result (λ r. length r.0.items ≡ r.1) }
    ensures last { IfOk result (λ r. NoChannel limits bodies r.1 r.2.now) }
{
    let mut channels = Vec::new(alloc);
    let mut rest = text;
    for count in 0..limits.channels {
        let Some((channel, more)) = channel_next(alloc, limits, bodies, count, rest, words, line)?
        else {
            return Ok((channels, count, rest));
        };
        channels.push(channel)?;
        rest = more;
    }
    Ok((channels, limits.channels, rest))
}
