//! Reads the addresses of a configuration.
ghost use Rattle.std.specs.Prelude.{◌≡◌, ◌++◌, ◌↔◌, ◌<◌, ℤ, IfOk, IfSome, IsNone, IsSomeAnd, IsTrue, codes, map, string_bytes};
ghost use Rattle.std.specs.List.{AllZip};
ghost use Rattle.std.specs.Net.Grammar.{IsSocketText};
ghost use Rattle.std.specs.Net.Socket.{socket_port};
ghost use Rattle.serde_json.specs.View.{view};
ghost use Rattle.serve_config.specs.Addresses.{AreAddresses, IsAddress, IsAddressText, IsAdmin, IsControlAddress, IsControlText, IsDescriptor, IsLocalPort, IsUnixPath};
ghost use Rattle.serve_config.specs.Members.{IsOrNull, data_of, member_of};

use crate::address::{Address, ControlAddress};
use crate::fault::ServeConfigFault;
use crate::object::{Object, is_path};
use serde_json::Value;
use std::net::{IpAddr, Ipv4Addr, SocketAddr};

// How many addresses a server listens at, at most.
const MOST_ADDRESSES: usize = 16;

// How many bytes the path of a Unix socket has, at most.
const LONGEST_UNIX_PATH: usize = 101;

const BAD_LISTEN: &str = "is not a text or an array of 1 to 16 texts";

const BAD_ADDRESS: &str =
    "is not a text such as \"127.0.0.1:8080\", \"[::1]:8080\", \"unix:PATH\" or \"fd:3\"; names of hosts are not taken";

const BAD_CONTROL: &str =
    "is not a text such as \"127.0.0.1:8080\", \"unix:PATH\", \"file:PATH\", \"grpc://127.0.0.1:8080\" or \"grpc+unix:PATH\"; names of hosts are not taken";

const BAD_ADMIN: &str =
    "is not null, a port number from 0 to 65535, or a text such as \"127.0.0.1:8080\" or \"[::1]:8080\"; names of hosts are not taken";

const BAD_UNIX: &str = "is not \"unix:\" with a path of 1 to 101 bytes without NUL";

const BAD_FILE: &str = "is not \"file:\" with a path of at least one byte without NUL";

const BAD_DESCRIPTOR: &str = "is not \"fd:\" with a number from 3 to 1023";

/// The addresses at which the server listens, of which there is at least one.
pub(crate) fn listen_at(whole: Object) -> Result<Vec<Address>, ServeConfigFault>
    ensures { IfOk result (λ v. IsSomeAnd (member_of (codes "listen") (data_of whole.entry))
        (λ d. AreAddresses d v.items)) }
{
    match whole.required("listen")? {
        Value::String(text) => {
            let address = address_of(whole, "listen", text.as_str())?;
            Ok(vec![in whole.alloc; address]?)
        }
        Value::Array(items) if !items.is_empty() && items.len() <= MOST_ADDRESSES => {
            addresses_of(whole, items.as_slice())
        }
        _ => Err(whole.refuse("listen", BAD_LISTEN)),
    }
}

// The addresses that the items of `listen` spell.
fn addresses_of(whole: Object, items: &[Value]) -> Result<Vec<Address>, ServeConfigFault>
    ensures { IfOk result (λ v. AllZip IsAddressText (map view items.now) v.items) }
{
    let mut addresses = Vec::new(whole.alloc);
    for item in items {
        let index = addresses.len();
        let address = item_of(whole, index, item)?;
        addresses.push(address)?;
    }
    Ok(addresses)
}

// The address that an item of `listen` spells.
fn item_of(whole: Object, index: usize, item: &Value) -> Result<Address, ServeConfigFault>
    ensures { IfOk result (IsAddressText (view item.now)) }
{
    let name = format!(in whole.alloc; "listen[{index}]")?;
    match item.as_str() {
        Some(text) => address_of(whole, name.as_str(), text),
        None => Err(whole.refuse(name.as_str(), BAD_ADDRESS)),
    }
}

// The address that a text of the member of this name spells.
fn address_of(whole: Object, name: &str, text: &str) -> Result<Address, ServeConfigFault>
    ensures { IfOk result (IsAddress text.now) }
{
    if let Some(path) = text.strip_prefix("unix:") {
        return Ok(Address::Unix(unix_path(whole, name, path)?));
    }
    if let Some(digits) = text.strip_prefix("fd:") {
        return match descriptor_of(digits) {
            Some(number) => Ok(Address::Descriptor(number)),
            None => Err(whole.refuse(name, BAD_DESCRIPTOR)),
        };
    }
    match text.parse::<SocketAddr>() {
        Ok(address) => Ok(Address::Tcp(address)),
        Err(_) => Err(whole.refuse(name, BAD_ADDRESS)),
    }
}

// The path of a Unix socket, if it is allowed.
fn unix_path(whole: Object, name: &str, path: &str) -> Result<String, ServeConfigFault>
    ensures { IfOk result (λ s. (string_bytes s ≡ path.now) × IsUnixPath path.now) }
{
    if !is_unix_path(path) {
        return Err(whole.refuse(name, BAD_UNIX));
    }
    Ok(String::from_str(whole.alloc, path)?)
}

fn is_unix_path(path: &str) -> bool
    ensures { IsTrue result ↔ IsUnixPath path.now }
{
    is_path(path) && path.len() <= LONGEST_UNIX_PATH
}

// The descriptor that these digits spell, from 3 to 1023 and without a leading zero.
fn descriptor_of(digits: &str) -> Option<i32>
    ensures found { IfSome result (IsDescriptor digits.now) }
    ensures fault { IsNone result → (n : ℤ) → ¬ IsDescriptor digits.now n }
{
    if matches!(digits.as_bytes().first(), Some(b'0' | b'+')) {
        return None;
    }
    let number = digits.parse::<u16>().ok()?;
    if number < 3 || number > 1_023 {
        return None;
    }
    Some(i32::from(number))
}

/// The address of the control plane.
pub(crate) fn control_at(whole: Object) -> Result<ControlAddress, ServeConfigFault>
    ensures { IfOk result (λ a. IsSomeAnd (member_of (codes "control") (data_of whole.entry))
        (λ d. IsControlText d a)) }
{
    match whole.required("control")?.as_str() {
        Some(text) => control_of(whole, text),
        None => Err(whole.refuse("control", BAD_CONTROL)),
    }
}

// The address of the control plane that a text spells.
fn control_of(whole: Object, text: &str) -> Result<ControlAddress, ServeConfigFault>
    ensures { IfOk result (IsControlAddress text.now) }
{
    if let Some(path) = text.strip_prefix("unix:") {
        return Ok(ControlAddress::Unix(unix_path(whole, "control", path)?));
    }
    if let Some(path) = text.strip_prefix("file:") {
        if !is_path(path) {
            return Err(whole.refuse("control", BAD_FILE));
        }
        return Ok(ControlAddress::File(String::from_str(whole.alloc, path)?));
    }
    if let Some(path) = text.strip_prefix("grpc+unix:") {
        return Ok(ControlAddress::GrpcUnix(unix_path(whole, "control", path)?));
    }
    if let Some(rest) = text.strip_prefix("grpc://") {
        return Ok(ControlAddress::GrpcTcp(plane_at(whole, rest)?));
    }
    Ok(ControlAddress::Tcp(plane_at(whole, text)?))
}

// The TCP address of the control plane that a text spells. Its port is not 0.
fn plane_at(whole: Object, text: &str) -> Result<SocketAddr, ServeConfigFault>
    ensures { IfOk result (λ a. IsSocketText text.now a × (0 < socket_port a)) }
{
    match text.parse::<SocketAddr>() {
        Ok(address) if address.port() > 0 => Ok(address),
        _ => Err(whole.refuse("control", BAD_CONTROL)),
    }
}

/// The address of the admin port; `None` if there is none.
pub(crate) fn admin_at(whole: Object) -> Result<Option<SocketAddr>, ServeConfigFault>
    ensures { IfOk result (IsOrNull IsAdmin (member_of (codes "admin") (data_of whole.entry))) }
{
    match whole.get("admin") {
        None | Some(Value::Null) => Ok(None),
        Some(value) => match admin_of(value) {
            Some(address) => Ok(Some(address)),
            None => Err(whole.refuse("admin", BAD_ADMIN)),
        },
    }
}

// The address of the admin port that a number or a text spells.
fn admin_of(value: &Value) -> Option<SocketAddr>
    ensures { IfSome result (IsAdmin (view value.now)) }
{
    if let Some(text) = value.as_str() {
        return text.parse::<SocketAddr>().ok();
    }
    let port = u16::try_from(value.as_u64()?).ok()?;
    Some(local(port))
}

// A port at 127.0.0.1.
fn local(port: u16) -> SocketAddr
    ensures { IsLocalPort port result }
{
    SocketAddr::new(IpAddr::V4(Ipv4Addr::new(127, 0, 0, 1)), port)
}
