// The rows of a plan as text.
ghost use Rattle.std.specs.Prelude.{◌<◌};
ghost use Rattle.plan.specs.Rows.{row_width};

use format::{Row, types, words};
use std::fmt;
use std::fmt::{Display, Formatter};

// A value that may be absent, and one that may be none: 0 absent, 2 none.
#[derive(Clone, Copy)]
struct Optional {
    there: u64,
    value: u64,
}

impl Display for Optional {
    fn fmt<W: fmt::Write>(&self, f: &mut Formatter<W>) -> fmt::Result {
        match self.there {
            0 => write!(f, "-"),
            2 => write!(f, "none"),
            _ => write!(f, "{}", self.value),
        }
    }
}

// A row's F-TEID. Its flags: an IPv4 address, an IPv6 address, CHOOSE, a CHOOSE ID.
#[derive(Clone, Copy)]
struct Tunnel<'a>(&'a Row);

impl Tunnel<'_> {
    fn choose<W: fmt::Write>(&self, f: &mut Formatter<W>) -> fmt::Result {
        let flags = self.0[words::FLAGS];
        let v4 = if flags & 1 == 0 { "" } else { "4" };
        let v6 = if flags & 2 == 0 { "" } else { "6" };
        let id = Optional {
            there: flags / 8 % 2,
            value: self.0[words::CHOOSE_ID],
        };
        write!(f, "choose:{v4}{v6}:{id}")
    }

    fn given<W: fmt::Write>(&self, f: &mut Formatter<W>) -> fmt::Result {
        let flags = self.0[words::FLAGS];
        write!(f, "given:{}", self.0[words::TEID])?;
        if flags & 1 == 0 {
            write!(f, ":-:")?;
        } else {
            write!(f, ":{:08x}:", self.0[words::IPV4])?;
        }
        if flags & 2 == 0 {
            write!(f, "-")
        } else {
            write!(
                f,
                "{:016x}{:016x}",
                self.0[words::IPV6_HIGH],
                self.0[words::IPV6_LOW]
            )
        }
    }
}

impl Display for Tunnel<'_> {
    fn fmt<W: fmt::Write>(&self, f: &mut Formatter<W>) -> fmt::Result {
        let flags = self.0[words::FLAGS];
        if flags == 0 {
            write!(f, "-")
        } else if flags & 4 == 0 {
            self.given(f)
        } else {
            self.choose(f)
        }
    }
}

// A row's UE IP Address.
#[derive(Clone, Copy)]
struct Address<'a>(&'a Row);

impl Display for Address<'_> {
    fn fmt<W: fmt::Write>(&self, f: &mut Formatter<W>) -> fmt::Result {
        match self.0[words::UE_KIND] {
            0 => write!(f, "-"),
            words::UE_GIVEN => write!(f, "{:08x}", self.0[words::UE_ADDRESS]),
            words::UE_CHOOSE => write!(f, "choose"),
            _ => write!(f, "other"),
        }
    }
}

// The node of an FQ-CSID's row.
#[derive(Clone, Copy)]
struct Node<'a>(&'a Row);

impl Display for Node<'_> {
    fn fmt<W: fmt::Write>(&self, f: &mut Formatter<W>) -> fmt::Result {
        let high = self.0[words::ADDRESS_HIGH];
        let low = self.0[words::ADDRESS_LOW];
        match self.0[words::ID_TYPE] {
            0 => write!(f, "0:{low:08x}"),
            1 => write!(f, "1:{high:016x}{low:016x}"),
            _ => write!(f, "2:{}:{}", low / 4096, low % 4096),
        }
    }
}

// A row.
#[derive(Clone, Copy)]
pub(crate) struct Record<'a>(pub(crate) &'a Row);

impl Record<'_> {
    // A value of the row, of which another word says whether it is there.
    fn optional(&self, there: usize, value: usize) -> Optional
        requires { (there < row_width) × (value < row_width) }
    {
        Optional {
            there: self.0[there],
            value: self.0[value],
        }
    }

    fn create_pdr<W: fmt::Write>(&self, f: &mut Formatter<W>) -> fmt::Result {
        let row = self.0;
        let id = row[words::PDR_ID];
        let precedence = row[words::PRECEDENCE];
        let source = row[words::SOURCE];
        let tunnel = Tunnel(row);
        let endpoint = self.optional(words::HAS_ENDPOINT_ID, words::ENDPOINT_ID);
        let address = Address(row);
        let far = self.optional(words::HAS_FAR_ID, words::FAR_ID);
        write!(
            f,
            "create-pdr id={id} precedence={precedence} source={source} f-teid={tunnel} endpoint={endpoint} address={address} far={far}"
        )
    }

    fn update_pdr<W: fmt::Write>(&self, f: &mut Formatter<W>) -> fmt::Result {
        let id = self.0[words::PDR_ID];
        let precedence = self.optional(words::HAS_PRECEDENCE, words::PRECEDENCE);
        let far = self.optional(words::HAS_FAR_ID, words::FAR_ID);
        let pdi = self.0[words::HAS_PDI];
        write!(
            f,
            "update-pdr id={id} precedence={precedence} far={far} pdi={pdi}"
        )
    }

    fn csid<W: fmt::Write>(&self, f: &mut Formatter<W>) -> fmt::Result {
        let node = Node(self.0);
        let csids = self.0[words::CSID];
        let node_type = self.0[words::NODE_TYPE];
        match self.0[words::VERB] {
            1 => write!(f, "fq-csid node={node} csids={csids} node-type={node_type}"),
            2 => write!(f, "fq-csid-removal node-type={node_type}"),
            _ => write!(f, "fq-csid-removal-all"),
        }
    }
}

impl Display for Record<'_> {
    fn fmt<W: fmt::Write>(&self, f: &mut Formatter<W>) -> fmt::Result {
        let row = self.0;
        match row[words::TAG] {
            types::CREATE_PDR => self.create_pdr(f),
            types::CREATE_ENDPOINT => write!(
                f,
                "create-endpoint id={} f-teid={} address={}",
                row[words::ENDPOINT_ID],
                Tunnel(row),
                Address(row)
            ),
            types::UPDATE_PDR => self.update_pdr(f),
            types::REMOVE_PDR => write!(f, "remove-pdr id={}", row[words::PDR_ID]),
            types::REMOVE_ENDPOINT => write!(f, "remove-endpoint id={}", row[words::ENDPOINT_ID]),
            _ => self.csid(f),
        }
    }
}
