use anyhow::{Context, Result, bail};

// A line of a row.
pub(crate) enum Line<'a> {
    // `lab`: the call is one of the lab.
    Lab,
    // `$ WORDS`: the words of the call.
    Words(&'a str),
    // `- NAME`: a file follows.
    File(&'a str),
    // `+ TEXT`: what the file holds next.
    Content(&'a str),
    // `* FIRST END UNIT`: the unit for each number from the first one to below the second one.
    Repeated { first: u32, end: u32, unit: &'a str },
    // `> TEXT`: what is to be written next.
    Wanted(&'a str),
    // `usage`: the usage text and its status are wanted.
    Usage,
    // `end`: the wanted text is only the end of what is written.
    EndAlone,
    // `status NUMBER`: the exit number that is wanted.
    Status(u8),
    // `read NUMBER`: the read that fails.
    ReadFails(u32),
    // `write NUMBER`: the write that fails.
    WriteFails(u32),
    // `room NUMBER`: how many bytes may be written.
    Room(usize),
    // An empty line.
    Nothing,
}

fn repeated(rest: &str) -> Result<Line<'_>> {
    let (first, rest) = rest.split_once(' ').context("no second number")?;
    let (end, unit) = rest.split_once(' ').context("no unit")?;
    Ok(Line::Repeated {
        first: first.parse::<u32>().context("the first number")?,
        end: end.parse::<u32>().context("the second number")?,
        unit,
    })
}

fn with_rest<'a>(mark: &str, rest: &'a str) -> Result<Line<'a>> {
    match mark {
        "$" => Ok(Line::Words(rest)),
        "-" => Ok(Line::File(rest)),
        "+" => Ok(Line::Content(rest)),
        "*" => repeated(rest),
        ">" => Ok(Line::Wanted(rest)),
        "status" => Ok(Line::Status(rest.parse::<u8>().context("a status")?)),
        "read" => Ok(Line::ReadFails(rest.parse::<u32>().context("a read")?)),
        "write" => Ok(Line::WriteFails(rest.parse::<u32>().context("a write")?)),
        "room" => Ok(Line::Room(rest.parse::<usize>().context("a room")?)),
        _ => bail!("the mark {mark} is not known"),
    }
}

impl<'a> Line<'a> {
    pub(crate) fn read(line: &'a str) -> Result<Line<'a>> {
        match line.split_once(' ') {
            Some((mark, rest)) => with_rest(mark, rest),
            None => match line {
                "" => Ok(Line::Nothing),
                "lab" => Ok(Line::Lab),
                "usage" => Ok(Line::Usage),
                "end" => Ok(Line::EndAlone),
                _ => bail!("the line {line} is not known"),
            },
        }
    }
}
