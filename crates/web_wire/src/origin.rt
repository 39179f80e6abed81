//! The origins at which a server may be used (RFC 6454; which ones: our profile).
ghost use Rattle.std.specs.Prelude.{◌≡◌, ◌++◌, ◌∷◌, [], IfErr, IfOk, OnErr, OnOk, string_bytes};
ghost use Rattle.web_wire.specs.Origins.{IsOrigin, IsRefused, is_allowed_host, is_allowed_origin, is_bare, is_host_of, local_origin, local_origins, origin_text, port_suffix, refusal};

use std::alloc::{AllocError, Global};
use std::marker::Model;
use thiserror::Error;
use url::{ParseError, Url};

/// Why a text isn't an origin.
#[derive(Debug, Clone, Copy, PartialEq, Eq, Drop, Error)]
pub enum OriginFault {
    /// Memory was refused, or the URL would take 4 GiB. This says nothing else about the text.
    #[error("out of memory")]
    Memory,
    /// The text is not a URL (URL Standard, section 4.4).
    #[error("not a URL: {0}")]
    NotUrl(ParseError),
    /// The scheme is neither http nor https.
    #[error("the URL doesn't begin with http:// or https://")]
    NotHttp,
    /// The URL has a user name, a password, a path, a query or a fragment.
    #[error("the URL has more than a scheme, a host and a port, as https://terminals.example has")]
    NotOnlyOrigin,
}

impl From<AllocError> for OriginFault {
    ghost use Rattle.std.specs.Prelude.{◌≡◌};
    ghost use Rattle.web_wire.specs.declared.origin.OriginFault.TheVariants.{Memory};

    ghost from_gives = { λ _ fault. fault ≡ Memory };

    fn from(_cause: AllocError) -> OriginFault {
        OriginFault::Memory
    }
}

/// Whether a URL has nothing but a scheme, a host and a port.
fn is_bare(url: &Url) -> bool
    ensures { result ≡ is_bare url.now }
{
    url.username().is_empty()
        && url.password().is_none()
        && url.path() == "/"
        && url.query().is_none()
        && url.fragment().is_none()
}

/// The reason for which a URL isn't taken as an origin; None if it is.
fn refusal(url: &Url) -> Option<OriginFault>
    ensures { result ≡ refusal url.now }
{
    let is_http = url.scheme() == "http" || url.scheme() == "https";
    if !is_http {
        Some(OriginFault::NotHttp)
    } else if is_bare(url) {
        None
    } else {
        Some(OriginFault::NotOnlyOrigin)
    }
}

/// The text of a URL's origin.
fn origin_text(alloc: Global, url: &Url) -> Result<String, OriginFault>
    ensures text { IfOk result (λ text. string_bytes text ≡ origin_text url.now) }
    ensures memory { IfErr result (λ fault. fault ≡ OriginFault.Memory) }
{
    match url.origin() {
        Ok(origin) => Ok(origin.ascii_serialization(alloc)?),
        Err(_) => Err(OriginFault::Memory),
    }
}

/// The origin of a page: a scheme, http or https, a host and a port. Contracts see its text, as a browser sends it in
/// the field Origin: `https://terminals.example`, without the scheme's default port.
#[derive(Drop)]
pub struct Origin {
    text: String,
}

impl Model for Origin {
    ghost use Rattle.std.specs.Prelude.{ℕ, List, string_bytes};

    ghost Value = { List ℕ };

    ghost view = { λ origin. string_bytes origin.text };
}

impl Origin {
    /// Parses a URL such as `https://terminals.example`. The error says why the text is refused.
    pub fn parse(alloc: Global, text: &str) -> Result<Origin, OriginFault>
        ensures read { IfOk result (IsOrigin text.now) }
        ensures refused { IfErr result (IsRefused text.now) }
    {
        let url = match Url::parse(alloc, text) {
            Ok(url) => url,
            Err(ParseError::OutOfMemory) => return Err(OriginFault::Memory),
            Err(ParseError::Overflow) => return Err(OriginFault::Memory),
            Err(fault) => return Err(OriginFault::NotUrl(fault)),
        };
        if let Some(fault) = refusal(&url) {
            return Err(fault);
        }
        let text = origin_text(alloc, &url)?;
        Ok(Origin { text })
    }

    /// Its text, as a browser sends it.
    pub fn as_bytes(&self) -> &[u8]
        ensures { result.now ≡ self.now }
    {
        self.text.as_bytes()
    }
}

/// What follows a host's name for a port: nothing for the default port of http.
fn port_suffix(alloc: Global, port: u16) -> Result<String, AllocError>
    ensures { IfOk result (λ text. string_bytes text ≡ port_suffix port) }
{
    if port == 80 {
        Ok(String::new(alloc))
    } else {
        format!(in alloc; ":{port}")
    }
}

/// The origin of a server at this port of a host.
fn local_origin(alloc: Global, host: &str, port: u16) -> Result<Origin, AllocError>
    ensures { IfOk result (λ origin. origin ≡ local_origin host.now port) }
{
    let suffix = port_suffix(alloc, port)?;
    let text = format!(in alloc; "http://{host}{suffix}")?;
    Ok(Origin { text })
}

/// Whether this is the host, with the port, of an origin.
fn is_host_of(origin: &[u8], host: &[u8]) -> bool
    ensures { result ≡ is_host_of origin.now host.now }
{
    (origin.starts_with(b"http://") && &origin[7..] == host)
        || (origin.starts_with(b"https://") && &origin[8..] == host)
}

/// The origins at which a server may be used. Contracts see their texts.
#[derive(Drop)]
pub struct Site {
    origins: Vec<Origin>,
}

impl Model for Site {
    ghost use Rattle.std.specs.Prelude.{ℕ, List};

    ghost Value = { List (List ℕ) };

    ghost view = { λ site. site.origins.items };
}

impl Site {
    /// A server at this port, for browsers on the same machine: `http://127.0.0.1:PORT` and `http://localhost:PORT`.
    pub fn new(alloc: Global, port: u16) -> Result<Site, AllocError>
        ensures { IfOk result (λ site. site ≡ local_origins port) }
    {
        let mut origins = Vec::new(alloc);
        origins.push(local_origin(alloc, "127.0.0.1", port)?)?;
        origins.push(local_origin(alloc, "localhost", port)?)?;
        Ok(Site { origins })
    }

    /// Adds an origin, as of a proxy. An error if memory is refused: then nothing is added.
    pub fn allow(&mut self, origin: Origin) -> Result<(), AllocError>
        ensures added { OnOk result (self.new ≡ self.old ++ origin ∷ []) }
        ensures unchanged { OnErr result (self.new ≡ self.old) }
    {
        self.origins.push(origin)?;
        Ok(())
    }

    /// Whether this is one of its origins.
    pub fn has_origin(&self, value: &[u8]) -> bool
        ensures { result ≡ is_allowed_origin self.now value.now }
    {
        self.origins.iter().any(|origin| origin.as_bytes() == value)
    }

    /// Whether this is the host, with the port, of one of its origins.
    pub fn has_host(&self, value: &[u8]) -> bool
        ensures { result ≡ is_allowed_host self.now value.now }
    {
        self.origins
            .iter()
            .any(|origin| is_host_of(origin.as_bytes(), value))
    }
}
