//! Laws of the definitions. Each is a function without parameters whose contract is the law.
ghost use Rattle.std.specs.Prelude.{◌≡◌};
ghost use Rattle.attributes.specs.Address.{IsAddress, IsIpText};
ghost use Rattle.attributes.specs.Conn.{AreFacts as AreSound, Facts};
ghost use Rattle.attributes.specs.declared.address.Ip.{Ip};
ghost use Rattle.serde_json.specs.Data.{Data};
ghost use Rattle.program_texts.specs.Facts.{AreFacts};
ghost use Rattle.program_texts.specs.WrittenFacts.{AreInOneForm, facts_json, ip_text};

/// The text that is written for an address spells it.
pub fn written_addresses_spell()
    ensures { (ip : Ip) → IsAddress ip → IsIpText (ip_text ip) ip }
{}

/// The object that is written for facts means them.
pub fn written_facts_read_back()
    ensures { (f : Facts) → AreSound f → AreInOneForm f → AreFacts (facts_json f) f }
{}

/// An object means one list of facts at most.
pub fn facts_unique()
    ensures { (d : Data) (f g : Facts) → AreFacts d f → AreFacts d g → f ≡ g }
{}
