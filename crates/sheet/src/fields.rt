// The fields of a line, the parts between its commas, from left to right.
ghost use Rattle.std.specs.Prelude.{◌≡◌, length, take, drop, option_copied};
ghost use Rattle.sheet.specs.Fields.{before, past, field, field_start};

// The bytes before the first c, and those past it where there is one.
pub(crate) fn split_once(s: &[u8], c: u8) -> (&[u8], Option<&[u8]>)
    ensures before { result.0.now ≡ before c s.now }
    ensures past { option_copied result.1 ≡ past c s.now }
{
    for (i, &b) in s.iter().enumerate() {
        if b == c {
            return (&s[..i], Some(&s[i + 1..]));
        }
    }
    (s, None)
}

// The fields of a line that are not read yet, each a part of the caller's line.
#[derive(Clone, Copy)]
pub(crate) struct Fields<'a> {
    rest: Option<&'a [u8]>,
}

impl<'a> Fields<'a> {
    ghost use Rattle.sheet.specs.Fields.{fields};
    ghost use Rattle.sheet.specs.Left.{fields_left};

    pub(crate) fn new(line: &'a [u8]) -> Self
        ensures { fields_left result ≡ fields line.now }
    {
        Fields { rest: Some(line) }
    }
}

impl<'a> Iterator for Fields<'a> {
    ghost use Rattle.std.specs.Iterator.{YieldsFirstRef, item_count};
    ghost use Rattle.sheet.specs.Left.{fields_left};

    type Item = &'a [u8];

    ghost next_gives = { YieldsFirstRef fields_left };

    ghost remaining = { item_count fields_left };

    fn next(&mut self) -> Option<&'a [u8]> {
        let (field, rest) = split_once(self.rest?, b',');
        self.rest = rest;
        Some(field)
    }
}

// Field i, uncopied: the part of the caller's line that begins at the field's start. Empty where the line has no such field.
pub fn field(line: &[u8], i: usize) -> &[u8]
    ensures is_field { result.now ≡ field line.now i }
    ensures in_line { result.now ≡ take (length result.now) (drop (field_start line.now i) line.now) }
{
    Fields::new(line).nth(i).unwrap_or(&[])
}
