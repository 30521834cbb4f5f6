//! Reading the lines of configurations, of the trace, of drivers and of the space.

ghost use Rattle.std.specs.Prelude.{◌≡◌, map, length, IfOk};
ghost use Rattle.hx_types.specs.Spaces.{IsSpace};
ghost use Rattle.hx_report_lines.specs.Readers.{Gives, Reads};
ghost use Rattle.hx_report_lines.specs.Tailing.{all_below, ascend_to, driver_in, driver_of, epoch_in, epoch_of, field, numbers, numbers_after, raw_of, rest_of_head, space_of};

use crate::blocks::DriverLine;
use crate::cursor::Cursor;
use crate::epochs::EpochLine;
use crate::errors::Stop;
use crate::items::is_line;
use crate::printing::{put_driver_line, put_epoch};
use crate::values::is;
use hx_print::{print_space, put_bytes};
use hx_rules::count_regions;
use hx_script::{ScriptError, read};
use hx_types::{
    Epoch, Exact, Memory, RegionId, RegionList, Sequence, ServerId, ServerList, Space, Text, Totals,
};
use std::alloc::Global;
use std::str;

/// Takes the numbers that stand after commas.
#[tactic(auto, using(crate::proofs::NumbersRead::at_end, crate::proofs::NumbersRead::no_comma, crate::proofs::NumbersRead::no_number))]
fn numbers_after(left: &mut Cursor<'_>, numbers: &mut Vec<u32>) -> Result<(), Stop>
    ensures { Reads (λ _. numbers.new.items) result left.new (numbers_after (length left.old) numbers.old.items left.old) }
{
    let mut most = left.rest().len();
    'numbers: while most > 0 {
        if !left.rest().starts_with(b",") {
            return Ok(());
        }
        left.word(b",")?;
        let number = left.short_number()?;
        numbers.push(number)?;
        most -= 1;
    }
    Ok(())
}

/// Takes numbers with commas between them, or `-`.
fn numbers(alloc: Global, left: &mut Cursor<'_>) -> Result<Vec<u32>, Stop>
    ensures { Reads (λ ns. ns.items) result left.new (numbers left.old) }
{
    let mut numbers = Vec::new(alloc);
    if left.rest().starts_with(b"-") {
        left.word(b"-")?;
        return Ok(numbers);
    }
    numbers.push(left.short_number()?)?;
    numbers_after(left, &mut numbers)?;
    Ok(numbers)
}

/// Whether each number is above the one before it, and none above `most`.
fn ascend_to(most: u32, numbers: &[u32]) -> bool
    ensures { result ≡ ascend_to 0 most numbers.now }
{
    let mut last = 0;
    let mut left = numbers;
    'numbers: while let Some((number, rest)) = left.split_first() {
        if !(last < *number && *number <= most) {
            return false;
        }
        last = *number;
        left = rest;
    }
    true
}

fn all_below(most: u32, numbers: &[u32]) -> bool
    ensures { result ≡ all_below most numbers.now }
{
    numbers.iter().all(|number| *number < most)
}

#[tactic(auto, using(crate::proofs::Lengths::map_more))]
fn servers(alloc: Global, numbers: &[u32]) -> Result<ServerList, Memory>
    ensures { IfOk result (λ servers. servers ≡ map (λ n. record { 0 = n }) numbers.now) }
{
    let mut servers = Vec::new(alloc);
    for number in numbers {
        servers.push(ServerId(*number))?;
    }
    Ok(Sequence::from_vec(servers))
}

#[tactic(auto, using(crate::proofs::Lengths::map_more))]
fn regions(alloc: Global, numbers: &[u32]) -> Result<RegionList, Memory>
    ensures { IfOk result (λ regions. regions ≡ map (λ n. record { 0 = n }) numbers.now) }
{
    let mut regions = Vec::new(alloc);
    for number in numbers {
        regions.push(RegionId(*number))?;
    }
    Ok(Sequence::from_vec(regions))
}

#[tactic(auto, unfolding(crate::specs::Tailing::epoch_in))]
fn epoch_in(alloc: Global, space: &Space, left: &mut Cursor<'_>) -> Result<EpochLine, Stop>
    requires { IsSpace space.now }
    ensures { Reads (λ e. e) result left.new (epoch_in space.now left.old) }
{
    left.word(b"epoch ")?;
    let epoch = Epoch(left.number()?);
    left.word(b" servers ")?;
    let servers_here = numbers(alloc, left)?;
    if !ascend_to(space.servers, &servers_here) {
        return Err(Stop::Unread);
    }
    left.word(b" lost ")?;
    let lost_here = numbers(alloc, left)?;
    if !all_below(count_regions(space), &lost_here) {
        return Err(Stop::Unread);
    }
    Ok(EpochLine {
        epoch,
        servers: servers(alloc, &servers_here)?,
        lost: regions(alloc, &lost_here)?,
    })
}

/// The configuration of a line.
#[tactic(auto, unfolding(crate::specs::Tailing::epoch_of))]
pub(crate) fn epoch_of(alloc: Global, space: &Space, line: &[u8]) -> Result<EpochLine, Stop>
    requires { IsSpace space.now }
    ensures { Gives (λ e. e) result (epoch_of space.now line.now) }
{
    let mut left = Cursor::new(line);
    let epoch = epoch_in(alloc, space, &mut left)?;
    let mut printed = Vec::new(alloc);
    put_epoch(&mut printed, &epoch)?;
    if is_line(&printed, line) {
        Ok(epoch)
    } else {
        Err(Stop::Unread)
    }
}

/// A line of the trace, as it stands.
#[tactic(auto, using(crate::proofs::Lengths::utf8_yes, crate::proofs::Lengths::utf8_no), unfolding(crate::specs::Tailing::raw_of))]
pub(crate) fn raw_of(alloc: Global, line: &[u8]) -> Result<Text, Stop>
    ensures { Gives (λ t. t) result (raw_of line.now) }
{
    if !line.starts_with(b"entry ") && !line.starts_with(b"post ") {
        return Err(Stop::Unread);
    }
    match str::from_utf8(line) {
        Ok(text) => Ok(Text::from_str(alloc, text)?),
        Err(_) => Err(Stop::Unread),
    }
}

#[tactic(auto, unfolding(crate::specs::Tailing::field))]
fn field(left: &mut Cursor<'_>, label: &[u8]) -> Result<u64, Stop>
    ensures { Reads (λ n. n) result left.new (field label.now left.old) }
{
    left.word(label)?;
    left.number()
}

#[tactic(auto, unfolding(crate::specs::Tailing::driver_in))]
fn driver_in(left: &mut Cursor<'_>) -> Result<DriverLine, Stop>
    ensures { Reads (λ d. d) result left.new (driver_in left.old) }
{
    left.word(b"driver ")?;
    let driver = left.short_number()?;
    let posts = field(left, b" posts ")?;
    let deliver = field(left, b" deliver ")?;
    let lose = field(left, b" lose ")?;
    let twice = field(left, b" twice ")?;
    let totals = Totals {
        posts,
        deliver,
        lose,
        twice,
    };
    Ok(DriverLine { driver, totals })
}

/// The driver of a line.
#[tactic(auto, unfolding(crate::specs::Tailing::driver_of))]
pub(crate) fn driver_of(alloc: Global, line: &[u8]) -> Result<DriverLine, Stop>
    ensures { Gives (λ d. d) result (driver_of line.now) }
{
    let mut left = Cursor::new(line);
    let driver = driver_in(&mut left)?;
    let mut printed = Vec::new(alloc);
    put_driver_line(&mut printed, &driver)?;
    if is_line(&printed, line) {
        Ok(driver)
    } else {
        Err(Stop::Unread)
    }
}

/// The space of lines, each with its newline: that of a script which begins with them.
#[tactic(auto, unfolding(crate::specs::Tailing::space_of))]
pub(crate) fn space_of(alloc: Global, lines: &[u8]) -> Result<Space, Stop>
    ensures { Gives (λ s. s) result (space_of lines.now) }
{
    let mut text = Vec::new(alloc);
    put_bytes(&mut text, b"hx 1\n")?;
    put_bytes(&mut text, lines)?;
    let script = match read(alloc, &text) {
        Ok(script) => script,
        Err(ScriptError::Memory) => return Err(Stop::Memory),
        Err(ScriptError::Refused { .. }) => return Err(Stop::Unread),
    };
    if !is(&print_space(alloc, &script.space)?, lines) {
        return Err(Stop::Unread);
    }
    Ok(script.space.copy(alloc)?)
}

/// What may stand behind the first lines of a space, by the last of them.
pub(crate) fn rest_of_head(line: &[u8]) -> Result<&'static [u8], Stop>
    ensures { Gives (λ rest. rest.now) result (rest_of_head line.now) }
{
    if line.starts_with(b"space ") {
        Ok(b"key k 1\nservers 1\ntolerate 0\n".as_slice())
    } else if line.starts_with(b"key ")
        || line.starts_with(b"string ")
        || line.starts_with(b"int ")
        || line.starts_with(b"subspace ")
    {
        Ok(b"servers 1\ntolerate 0\n".as_slice())
    } else if line.starts_with(b"servers ") {
        Ok(b"tolerate 0\n".as_slice())
    } else if line.starts_with(b"tolerate ") {
        Ok(b"".as_slice())
    } else {
        Err(Stop::Unread)
    }
}
