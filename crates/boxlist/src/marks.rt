// The two letters that each record begins with.
ghost use Rattle.std.specs.Prelude.{◌≡◌, IfSome, Some};
ghost use Rattle.boxlist.specs.declared.marks.Mark.{Mark};
ghost use Rattle.boxlist.specs.Marks.{letters_of};

#[derive(Clone, Copy)]
pub(crate) enum Mark {
    St,
    Cl,
    Bx,
    Gl,
    Kn,
    Pn,
    Nt,
    En,
}

impl Mark {
    // No TryFrom: it would need an error that nothing reads.
    pub(crate) fn of(letters: &[u8]) -> Option<Mark>
        ensures reads { IfSome result (λ m. letters.now ≡ letters_of m) }
        ensures finds { (m : Mark) → letters.now ≡ letters_of m → result ≡ Some m }
    {
        match letters {
            b"ST" => Some(Mark::St),
            b"CL" => Some(Mark::Cl),
            b"BX" => Some(Mark::Bx),
            b"GL" => Some(Mark::Gl),
            b"KN" => Some(Mark::Kn),
            b"PN" => Some(Mark::Pn),
            b"NT" => Some(Mark::Nt),
            b"EN" => Some(Mark::En),
            _ => None,
        }
    }
}
