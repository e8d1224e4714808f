// What is said on which failure.
ghost use Rattle.std.specs.Prelude.{◌≡◌, cond, Some, None};
ghost use Rattle.lenthuc.specs.Failure.{message};
ghost use Rattle.lenthuc.specs.declared.failure.Failure.TheVariants.{Unread, Unwritten};

#[derive(Clone, Copy, Debug, PartialEq, Eq)]
pub(crate) enum Failure {
    Unread,
    Unwritten,
}

// Bytes that come after the end of the input: it was no end.
pub(crate) fn read_failure(more: bool) -> Option<Failure>
    ensures { result ≡ cond more (Some Unread) None }
{
    more.then_some(Failure::Unread)
}

pub(crate) fn write_failure(written: bool) -> Option<Failure>
    ensures { result ≡ cond written None (Some Unwritten) }
{
    (!written).then_some(Failure::Unwritten)
}

// What is said, and nothing where nothing failed.
pub(crate) fn message(failure: Option<Failure>) -> &'static [u8]
    ensures { result.now ≡ message failure }
{
    match failure {
        None => b"",
        Some(failure) => match failure {
            Failure::Unread => b"lenthuc: the sheet could not be read to its end\n",
            Failure::Unwritten => b"lenthuc: the answers could not be written\n",
        },
    }
}
